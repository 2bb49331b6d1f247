//! A call that may want memory, and how it is made and told.
ghost use Rattle.std.specs.Prelude.{◌≡◌, length};

use std::alloc::AllocError;
use std::io;

/// A call that succeeded.
pub const DONE: &str = "Ok";

/// Memory was wanted, and none was to be had.
pub const NO_MEMORY: &str = "Z1 NoMemory";

/// What the trial could not set up.
pub const NO_CALL: &str = "no such call";

/// The answer of a call that fails for want of memory alone.
pub fn of_memory<T: Drop>(answer: Result<T, AllocError>) -> &'static str {
    match answer {
        Ok(_) => DONE,
        Err(_) => NO_MEMORY,
    }
}

/// What stands: how many bytes, their digest, and one more number that the trial can see.
#[derive(Clone, Copy, Debug)]
pub struct State {
    pub len: usize,
    pub digest: u32,
    pub more: u64,
}

/// A number that tells bytes apart: 31 times that of the bytes before the last one, and the last one, modulo 2^32. (A check word would not
/// do: behind equal bytes, all whole frames of one length have the same.)
fn digest(bytes: &[u8]) -> u32 {
    bytes.iter().fold(0, |sum: u32, byte| {
        sum.wrapping_mul(31).wrapping_add(u32::from(*byte))
    })
}

/// The bytes, and one more number.
pub fn state_of(bytes: &[u8], more: u64) -> State
    ensures len { result.len ≡ length bytes.now }
    ensures more { result.more ≡ more }
{
    State {
        len: bytes.len(),
        digest: digest(bytes),
        more,
    }
}

/// What stands where a call makes something: whether it was made.
pub fn made(is_made: bool) -> State
    ensures len { result.len ≡ 0 }
    ensures digest { result.digest ≡ 0 }
{
    State {
        len: 0,
        digest: 0,
        more: u64::from(is_made),
    }
}

/// A call on what stands.
pub trait Trial {
    /// The name of the call.
    fn name(&self) -> &'static str;

    /// What stands.
    fn state(&self) -> State;

    /// Makes the call, and gives its answer: `Ok`, or the code and the name of the refusal.
    fn call(&mut self) -> &'static str;

    /// Makes anew what a refusal ended; nothing where a refusal ends nothing.
    fn renew(&mut self) -> Result<(), AllocError>;
}

/// Prints that the call begins. What it asks for counts from here to the next line.
pub fn begin<R: Print>(rt: &R, name: &str, state: State) -> io::Result<()> {
    let State { len, digest, more } = state;
    println!(rt; "call {name}: {len} {digest} {more}")
}

/// Prints its answer.
pub fn end<R: Print>(rt: &R, answer: &str, state: State) -> io::Result<()> {
    let State { len, digest, more } = state;
    println!(rt; "  {answer}: {len} {digest} {more}")
}

/// Makes the call once, and says whether it was answered `Ok`.
fn attempt<T: Trial, R: Print>(rt: &R, trial: &mut T) -> io::Result<bool> {
    begin(rt, trial.name(), trial.state())?;
    let answer = trial.call();
    end(rt, answer, trial.state())?;
    Ok(answer == DONE)
}

/// Makes the call; again where it is refused, and where it is refused again once more, on what is made anew.
pub fn make<T: Trial, R: Print>(rt: &R, trial: &mut T) -> io::Result<()> {
    if attempt(rt, trial)? || attempt(rt, trial)? {
        return Ok(());
    }
    trial.renew()?;
    attempt(rt, trial)?;
    Ok(())
}
