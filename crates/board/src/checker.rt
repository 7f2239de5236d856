// How far a check has come.
ghost use Rattle.std.specs.Prelude.{◌≡◌, [], Some};
ghost use Rattle.board.specs.Held.{held};
ghost use Rattle.board.specs.Checks.{bracketed, before_moves, take_named, take_move};
ghost use Rattle.board.specs.Checkers.{unclosed_of, progress_of, left};

use crate::bounds::MOST_OPEN;
use crate::moves::{Effect, Move, Place};
use crate::named::Named;
use crate::refusal::Refusal;
use crate::tables::Tables;
use arrayvec::ArrayVec;
use costs::Kind;

// The brackets that are open, the last one last.
#[derive(Drop)]
pub(crate) struct OpenBrackets {
    open: ArrayVec<u8, MOST_OPEN>,
}

// The place reached, the brackets open there, whether an end row was met, and the costs so far joined. (No optional place
// in place of the two: the definition of how far a check has come keeps both, also after an end row.)
#[derive(Drop)]
pub(crate) struct Checker {
    place: Place,
    brackets: OpenBrackets,
    ended: bool,
    cost: u32,
}

impl OpenBrackets {
    // None open.
    pub(crate) fn new() -> OpenBrackets
        ensures { unclosed_of result ≡ [] }
    {
        OpenBrackets {
            open: ArrayVec::new(),
        }
    }

    // Opens or closes as the effect says; an end must find none open.
    pub(crate) fn pass(&mut self, effect: Effect) -> Result<(), Refusal>
        ensures { left result (unclosed_of self.new) ≡ bracketed effect (unclosed_of self.old) }
    {
        match effect {
            Effect::Quiet => {}
            Effect::Opens(bracket) => {
                if self.open.is_full() {
                    return Err(Refusal::TooDeep);
                }
                self.open.push(bracket);
            }
            Effect::Closes(bracket) => {
                if self.open.pop() != Some(bracket) {
                    return Err(Refusal::BadBracket);
                }
            }
            Effect::Ends => {
                if !self.open.is_empty() {
                    return Err(Refusal::BadBracket);
                }
            }
        }
        Ok(())
    }
}

impl Checker {
    // At place 0, with no bracket open and nothing joined.
    pub(crate) fn new<K: Kind>() -> Checker
        ensures { progress_of result ≡ before_moves K.meaning }
    {
        Checker {
            place: (0, 0),
            brackets: OpenBrackets::new(),
            ended: false,
            cost: K::free(),
        }
    }

    // Goes on by what a move names.
    fn take_named<K: Kind>(&mut self, moments: u8, named: &Named) -> Result<(), Refusal>
        ensures { left result (progress_of self.new) ≡ take_named K.meaning moments (progress_of self.old) (Some named.now) }
    {
        if self.ended || !named.starts_at(moments, self.place) {
            return Err(Refusal::NotNext);
        }
        let arrival = named.arrival::<K>(self.place);
        self.brackets.pass(arrival.effect)?;
        self.place = arrival.to;
        self.ended = arrival.effect.is_end();
        self.cost = K::join(self.cost, arrival.cost);
        Ok(())
    }

    // Goes on by one packed move.
    pub(crate) fn take_move<K: Kind>(
        &mut self,
        tables: &Tables<K>,
        number: u16,
    ) -> Result<(), Refusal>
        ensures { left result (progress_of self.new) ≡ take_move K.meaning (held tables.now) (progress_of self.old) number }
    {
        let v = Move::unpack(number).ok_or(Refusal::BadMove)?;
        let named = tables.named(v).ok_or(Refusal::BadMove)?;
        self.take_named::<K>(tables.moments, &named)
    }

    // Whether an end row was met.
    pub(crate) fn has_ended(&self) -> bool
        ensures { result ≡ (progress_of self.now).ended }
    {
        self.ended
    }

    // The costs so far joined.
    pub(crate) fn total(&self) -> u32
        ensures { result ≡ (progress_of self.now).cost }
    {
        self.cost
    }
}
