//! One turn: a ticket is drawn, waited for, used and given up.
ghost use Rattle.std.specs.Prelude.{◌≡◌, ◌^◌, ◌<◌, ◌≤◌, [], ◌∷◌, ◌++◌, List, ℕ, suc, true, false, IfOk, IfErr, Some};
ghost use Rattle.turn_cell.specs.History.{own, tag, Turned};
ghost use Rattle.turn_cell.specs.declared.view.Stage.TheVariants.{Waiting, Holding};
ghost use Rattle.turn_cell.specs.inner.Transitions.{HasTurn, after_turn};
ghost use Rattle.turn_cell.specs.inner.Fields.{cell_start, cell_callers};
ghost use Rattle.turn_cell.specs.Passes.{start, low, high, seen, made, is_worn, IsPassOf, IsTurn};

use crate::cell::{Cell, DRAWN, OBJECT, PASSED};
use crate::object::TurnObject;
use crate::pass::Pass;
use crate::steps::{Adds, Draw, Look, PassOn};
use crate::view::View;
use atomic_table::Seat;
use cap_base::Worn;
use crossbeam_utils::Backoff;
use std::marker::Brand;
use std::snapshot::Snapshot;
use std::sync::Wait;
use std::time::Duration;

/// How long a thread that waits for its turn sleeps at most before it looks again, in microseconds.
const LONGEST_SLEEP: u64 = 1_000;

impl<O: TurnObject> Cell<O> {
    // Waits until the ticket is the turn: spins first, then sleeps until turns pass.
    fn await_turn<R: Wait>(&self, rt: &R, seat: &mut Seat<O, View<O, O::Entry>>, ticket: u64)
        requires table { seat.old.table_id ≡ self.now.table.shared.table_id }
        requires waits { seat.old.me.0.stage ≡ Waiting ticket }
        ensures same { (seat.new.table_id ≡ seat.old.table_id) × (seat.new.id ≡ seat.old.id) }
        ensures finds { HasTurn O.stands_for (Turned O.entries O.admits) seat.old.me ticket seat.new.me }
    {
        let backoff = Backoff::new();
        for _ in rt.forever() {
            let passed = self.table.shared.load::<Look<O>>(seat, PASSED);
            if passed == ticket {
                return;
            }
            if backoff.is_completed() {
                self.rest(rt, passed, Duration::from_micros(LONGEST_SLEEP));
            } else {
                backoff.snooze();
            }
        }
        unreachable!()
    }

    // Passes the turn on, by which the entries join the history, and wakes those who sleep. The clauses alone speak of the
    // ticket and of the object.
    fn pass_on<W: Adds<O::Entry>>(
        &self,
        seat: &mut Seat<O, View<O, O::Entry>>,
        ticket: u64,
        object: &Snapshot<O>,
        call: &Snapshot<O::Call>,
        reply: &O::Reply,
    )
        requires table { seat.old.table_id ≡ self.now.table.shared.table_id }
        requires entries { W.added ≡ O.entries call.now.value reply.now }
        requires holds { (seat.old.me.0.stage ≡ Holding ticket) × (seat.old.me.0.key ≡ Some self.now.table.shared.key) × (seat.old.me.1 ≡ (0, object.now.value) ∷ []) }
        requires made { Turned O.entries O.admits (cell_callers self.now) (cell_start self.now) (suc ticket) (seat.old.me.0.seen ++ tag seat.old.me.0.low (O.entries call.now.value reply.now)) }
        requires stands { O.stands_for (cell_start self.now) object.now.value (seat.old.me.0.seen ++ tag seat.old.me.0.low (O.entries call.now.value reply.now)) }
        ensures same { (seat.new.table_id ≡ seat.old.table_id) × (seat.new.id ≡ seat.old.id) }
        ensures view { seat.new.me ≡ (after_turn seat.old.me.0 (O.entries call.now.value reply.now), []) }
    {
        let _ = ticket;
        let _ = object;
        self.table.shared.fetch_add::<PassOn<W>>(seat, PASSED, 1);
        self.wake_resting();
    }

    /// Waits for the next turn and performs the call in it.
    ///
    /// The call is made under the least number of the pass, for which it has to be admitted. The history after it
    /// begins with all that the pass had seen before and ends with the entries of this call and its reply.
    ///
    /// `Worn`, with the call, exactly where all turns of the cell were drawn before, at this turn or at an earlier one
    /// of this pass. Then nothing has changed but that the pass is worn. No clause here tells how many were drawn:
    /// [`Cell::close`] carries the cause, since of a worn pass it tells that all turns were made.
    #[tactic(auto, unfolding(crate::specs::Passes::start, crate::specs::Passes::low, crate::specs::Passes::high, crate::specs::Passes::seen, crate::specs::Passes::made, crate::specs::Passes::is_worn, crate::specs::Passes::IsMadeBy))]
    pub fn turn<R: Wait>(
        &self,
        rt: &R,
        pass: &mut Pass<O>,
        call: O::Call,
    ) -> Result<O::Reply, (Worn, O::Call)>
        requires pass { IsPassOf self.now pass.old }
        requires admitted { O.admits (start self.now) (low pass.old) (own (low pass.old) (made pass.old)) call }
        ensures pass { IsPassOf self.now pass.new × (low pass.new ≡ low pass.old) × (high pass.new ≡ high pass.old) }
        ensures turn { IfOk result (λ reply. IsTurn O.stands_for (Turned O.entries O.admits) self.now pass.old pass.new (O.entries call reply)) }
        ensures reply { IfOk result (λ reply. O.answers (seen pass.new) call reply) }
        ensures not_worn { IfOk result (λ reply. (is_worn pass.old ≡ false) × (is_worn pass.new ≡ false)) }
        ensures worn { IfErr result (λ e. (e.1 ≡ call) × (is_worn pass.new ≡ true) × (seen pass.new ≡ seen pass.old) × (made pass.new ≡ made pass.old)) }
    {
        if pass.worn {
            return Err((Worn, call));
        }
        let ticket = self
            .table
            .shared
            .fetch_add::<Draw>(&mut pass.seat, DRAWN, 1);
        if ticket >= self.turns {
            pass.worn = true;
            return Err((Worn, call));
        }
        self.await_turn(rt, &mut pass.seat, ticket);
        let said = Snapshot::of(&call);
        let object = pass.seat.slot_mut(&self.table.shared, OBJECT);
        let reply = object.step(call);
        let after = Snapshot::of(object);
        self.pass_on::<Brand>(&mut pass.seat, ticket, &after, &said, &reply);
        Ok(reply)
    }
}
