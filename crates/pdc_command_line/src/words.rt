//! The words, options and flags that commands take.
ghost use Rattle.std.specs.Prelude.{ℕ, ◌≤◌, IfErr, IfOk};
ghost use Rattle.pdc_command_line.specs.Number.{IsNumber};

use crate::number::number;
use crate::wrong::Wrong;
use clap::{Arg, ArgAction, Command};
use std::alloc::{AllocError, Global};

/// The form of a word, an option or a flag.
#[derive(Clone, Copy)]
pub enum Form<'a> {
    /// A word that must be there.
    Word,
    /// A word that may be left out.
    Optional,
    /// Up to sixteen words, which may be left out.
    UpToSixteen,
    /// An option `--name VALUE` with this value, which may be left out.
    Option(&'a str),
    /// An option `--name VALUE` with this value, which is allowed only with the option of the other name.
    Beside(&'a str, &'a str),
    /// An option `--name VALUE` with one of these values, which may be left out.
    OneOf(&'a str, &'a [&'a str]),
    /// A flag `--name`.
    Flag,
}

/// A word, an option or a flag of a command: its name, its form, and its line of the help.
#[derive(Clone, Copy)]
pub struct Argument<'a>(pub &'a str, pub Form<'a>, pub &'a str);

/// A command as its help describes it.
#[derive(Clone, Copy)]
pub struct CommandHelp<'a> {
    /// Its name,
    pub name: &'a str,
    /// and behind that of the program.
    pub full_name: &'a str,
    /// What it does, in a line,
    pub about: &'a str,
    /// and at length.
    pub long: &'a str,
    /// Its words, options and flags, in this order.
    pub wanted: &'a [Argument<'a>],
}

/// An argument in this form.
///
/// # Errors
///
/// There is no memory.
fn in_form<'a>(arg: Arg<'a>, name: &'a str, form: Form<'a>) -> Result<Arg<'a>, AllocError> {
    Ok(match form {
        Form::Word => arg.required(true).action(ArgAction::Set),
        Form::Optional => arg.action(ArgAction::Set),
        Form::UpToSixteen => arg.num_args(1..=16).action(ArgAction::Append),
        Form::Option(value) => arg.long(name).value_name(value).action(ArgAction::Set),
        Form::Beside(value, other) => arg
            .long(name)
            .value_name(value)
            .action(ArgAction::Set)
            .requires_arg(other)?,
        Form::OneOf(value, values) => arg
            .long(name)
            .value_name(value)
            .value_parser(values)
            .action(ArgAction::Set),
        Form::Flag => arg.long(name).action(ArgAction::SetTrue),
    })
}

/// The word, option or flag, as `clap` reads it.
fn arg<'a>(alloc: Global, wanted: &Argument<'a>) -> Result<Arg<'a>, AllocError> {
    let Argument(name, form, help) = *wanted;
    in_form(Arg::new(alloc, name).help(help), name, form)
}

/// The command, as `clap` reads it.
pub fn command_of<'a>(alloc: Global, told: &CommandHelp<'a>) -> Result<Command<'a>, AllocError> {
    let mut command = Command::new(alloc, told.name)
        .bin_name(told.full_name)?
        .about(told.about)
        .long_about(told.long);
    for wanted in told.wanted {
        command = command.arg(arg(alloc, wanted)?)?;
    }
    Ok(command)
}

/// The number that the text writes, from 1 to the most, under its name as the help has it.
///
/// # Errors
///
/// It is not a number, or out of this range.
pub fn number_of<'a>(name: &'static str, text: &'a str, most: u32) -> Result<u32, Wrong<'a>>
    ensures found { IfOk result (IsNumber text.now) }
    ensures low { IfOk result (λ n. 1 ≤ n) }
    ensures high { IfOk result (λ n. n ≤ most) }
    ensures none { IfErr result (λ _. (n : ℕ) → IsNumber text.now n → 1 ≤ n → n ≤ most → ⊥) }
{
    match number(text, 1, most) {
        Some(n) => Ok(n),
        None => Err(Wrong::Number { name, text, most }),
    }
}

/// The same of a number that has 16 bits.
///
/// # Errors
///
/// The text is not a number, or out of this range.
pub fn short_number_of<'a>(name: &'static str, text: &'a str, most: u16) -> Result<u16, Wrong<'a>>
    ensures found { IfOk result (IsNumber text.now) }
    ensures low { IfOk result (λ n. 1 ≤ n) }
    ensures high { IfOk result (λ n. n ≤ most) }
    ensures none { IfErr result (λ _. (n : ℕ) → IsNumber text.now n → 1 ≤ n → n ≤ most → ⊥) }
{
    match number_of(name, text, u32::from(most)) {
        Ok(n) => Ok(n as u16),
        Err(wrong) => Err(wrong),
    }
}

/// The number of a text that may be left out.
///
/// # Errors
///
/// The text is not a number, or out of this range.
pub fn optional_number_of<'a>(
    name: &'static str,
    text: Option<&'a str>,
    most: u32,
) -> Result<Option<u32>, Wrong<'a>> {
    match text {
        Some(text) => Ok(Some(number_of(name, text, most)?)),
        None => Ok(None),
    }
}
