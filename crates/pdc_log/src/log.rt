//! A log that exists for contracts alone, but for its length.
ghost use Rattle.std.specs.Prelude.{◌≡◌, ◌+◌, ◌-◌, ◌<◌, ◌^◌, ◌++◌, ◌∷◌, [], length, true, false};
ghost use mathlib.Core.List.{IsPrefix};
ghost use Rattle.pdc_log.specs.Rules.{head_of};
ghost use Rattle.pdc_life.specs.Answer.{ReadStep, ToPop};

use logbook::{Gain, Offer, Plain, Play, Rule, Seen, Start, Word};
use pdc_core::{KeptArrival, LentData};
use pdc_life::MAX_PMUS;
use std::marker::{Brand, Model, PhantomData};
use std::sync::Wait;

/// A step as the log has it. No value of it is made.
pub struct Noted {
    never: u8,
}

impl Model for Noted {
    ghost use Rattle.pdc_life.specs.Answer.{ReadStep, ToPop};

    ghost Value = { ReadStep };

    ghost view = { λ _. ToPop };
}

/// The rule of the log.
pub struct Law;

impl Rule<Noted, u64> for Law {
    ghost use Rattle.std.specs.Prelude.{[]};
    ghost use base.Fml.{ftrue};
    ghost use Rattle.pdc_log.specs.Rules.{IsKept};

    ghost holds = { λ cells log. IsKept cells log };

    ghost first = { [] };

    ghost hinted = { λ n log. Unit {0} };

    ghost shows = { λ log. [] };

    ghost keeps = { λ names log. ftrue };

    ghost moves = { λ ask before after answer. Unit {0} };
}

/// Callers trade nothing.
pub struct Nothing;

impl Gain<Noted, u64> for Nothing {
    ghost use base.Fml.{ftrue};

    ghost after = { λ names about answer. ftrue };
}

/// A step that looks.
pub struct Look;

impl Play<Noted, u64> for Look {
    ghost use Rattle.pdc_log.specs.Rules.{Looks};

    ghost then = { Looks };
}

impl Plain<(), Noted, u64> for Look {
    ghost use Rattle.std.specs.Prelude.{None};
    ghost use Rattle.pdc_life.specs.Answer.{ToPop};

    ghost ask = { λ _. ToPop };

    ghost state = { λ _. None };
}

/// A step that adds.
pub struct Add;

impl Play<Noted, u64> for Add {
    ghost use Rattle.pdc_log.specs.Rules.{Adds};

    ghost then = { Adds };
}

/// What arrives: these bytes for a stream, which say this.
#[derive(Drop)]
pub struct Arriving<'a, 'b> {
    /// The number of the stream, from 0.
    pub stream: usize,
    /// What came.
    pub bytes: &'a [u8],
    /// The data that it says, if it is that.
    pub lent: &'a Option<LentData<'b>>,
    /// Else what it says.
    pub taken: &'a KeptArrival,
}

impl<'a, 'b> Plain<Arriving<'a, 'b>, Noted, u64> for Add {
    ghost use Rattle.std.specs.Prelude.{None};
    ghost use Rattle.pdc_core.specs.Lent.{brought_view};
    ghost use Rattle.pdc_life.specs.Answer.{ToArrive};

    ghost ask = { λ a. ToArrive a.stream a.bytes.now (brought_view a.lent.now a.taken.now) };

    ghost state = { λ a. None };
}

/// A tick: the instant that is now, and for each column the count up to which a section may be adopted.
#[derive(Drop)]
pub struct Ticking<'a> {
    /// The instant that is now.
    pub now: u64,
    /// For each column the count up to which a section may be adopted.
    pub counts: &'a [u16; MAX_PMUS],
}

impl<'a> Plain<Ticking<'a>, Noted, u64> for Add {
    ghost use Rattle.std.specs.Prelude.{None};
    ghost use Rattle.pdc_life.specs.Answer.{ToTick};

    ghost ask = { λ t. ToTick t.now t.counts.now };

    ghost state = { λ t. None };
}

/// A pop.
pub struct Popping;

impl Plain<Popping, Noted, u64> for Add {
    ghost use Rattle.std.specs.Prelude.{None};
    ghost use Rattle.pdc_life.specs.Answer.{ToPop};

    ghost ask = { λ p. ToPop };

    ghost state = { λ p. None };
}

/// Which log it is. It exists for contracts alone, and each call of a program that makes a log picks it.
pub trait Logged {
    ghost use Rattle.logbook.specs.Pages.{Book};

    ghost book: { Book };
}

impl Logged for Brand {
    ghost book = { record { number = 0; log_name = 0; cells_name = 0 } };
}

/// The log, as who has the lock sees it: its steps, all of them. Of these only the number is stored.
#[derive(Drop)]
pub struct Log {
    head: Word<Noted, u64, Law>,
    steps: u64,
    pub seen: Seen<Noted, u64, Law>,
    pub ghost counted: { steps ≡ length seen.log },
    pub ghost head_is: { head ≡ head_of seen.book },
}

/// A beginning of the log that a caller has seen.
#[derive(Drop)]
pub struct Front<N: Logged> {
    seen: Seen<Noted, u64, Law>,
    of: PhantomData<N>,
}

impl<N: Logged> Model for Front<N> {
    ghost use Rattle.std.specs.Prelude.{◌≡◌, List};
    ghost use Rattle.pdc_life.specs.Answer.{ReadStep};

    ghost Value = { List ReadStep };

    ghost view = { λ f. f.seen.log };

    ghost invariant = { λ f. f.seen.book ≡ N.book };
}

impl<N: Logged> Front<N> {
    /// A copy.
    pub fn again(&self) -> Front<N>
        ensures { result ≡ self.now }
    {
        Front {
            seen: self.seen.again(),
            of: PhantomData,
        }
    }

    /// Afterwards it has seen what both saw.
    pub fn learn(&mut self, other: &Front<N>)
        ensures { IsPrefix self.old self.new × IsPrefix other.now self.new }
    {
        let theirs = &other.seen;
        self.seen.learn(theirs);
    }
}

impl Log {
    /// A log with no step, which has no name yet.
    pub fn new() -> Log
        ensures { result.seen.log ≡ [] }
    {
        let (seen, mut first, _second) = Seen::open(Start::alone(), 0, 0);
        Log {
            head: Word::tracked(0, &mut first),
            steps: 0,
            seen,
        }
    }

    /// What a caller has seen at first, of the log that bears this name.
    pub fn front<N: Logged>(&self) -> Front<N>
        requires { self.now.seen.book ≡ N.book }
        ensures { result ≡ self.now.seen.log }
    {
        Front {
            seen: self.seen.again(),
            of: PhantomData,
        }
    }

    /// How many steps it has.
    pub fn len(&self) -> u64
        ensures { result ≡ length self.now.seen.log }
    {
        self.steps
    }

    /// Adds a step, which the caller then has seen, with all before it. Where the log is full, or longer than who has the lock knows, it waits
    /// for ever: no run gets there.
    pub fn add<N: Logged, R: Wait, X, M: Plain<X, Noted, u64>>(
        &mut self,
        rt: &R,
        me: &mut Front<N>,
        about: &X,
    )
        requires named { self.old.seen.book ≡ N.book }
        ensures named { self.new.seen.book ≡ N.book }
        ensures added { self.new.seen.log ≡ self.old.seen.log ++ M.ask about.now ∷ [] }
        ensures seen { me.new ≡ self.new.seen.log }
        ensures later { IsPrefix me.old self.old.seen.log }
    {
        let steps = self.steps;
        if steps == u64::MAX {
            never(rt);
        }
        let mut both = self.seen.again();
        both.learn(&me.seen);
        let mut offer: Offer<Noted, u64, Law, Nothing> = both.plain::<Nothing, X, M>(about);
        let mut pen = both.no_pen();
        let found = self
            .head
            .compare_exchange::<Add, Nothing>(steps, steps + 1, &mut both, &mut offer, &mut pen);
        if found != steps {
            never(rt);
        }
        me.seen = both.again();
        self.seen = both;
        self.steps = steps + 1;
    }

    /// Shows the caller all steps. Where the log is longer than who has the lock knows, it waits for ever: no run gets there.
    pub fn look<N: Logged, R: Wait>(&self, rt: &R, me: &mut Front<N>)
        requires named { self.now.seen.book ≡ N.book }
        ensures seen { me.new ≡ self.now.seen.log }
        ensures later { IsPrefix me.old self.now.seen.log }
    {
        let mut both = me.seen.again();
        both.learn(&self.seen);
        let mut offer: Offer<Noted, u64, Law, Nothing> = both.plain::<Nothing, (), Look>(&());
        let found = self.head.load::<Look, Nothing>(&mut both, &mut offer);
        if found != self.steps {
            never(rt);
        }
        me.seen = both;
    }
}

/// Does not return.
fn never<R: Wait>(rt: &R)
    ensures { ⊥ }
{
    for _ in rt.forever() {}
    unreachable!()
}
