// A board that is stepped forwards and back.
ghost use Rattle.std.specs.Prelude.{◌≡◌, ◌+◌, ◌^◌, ◌<◌, ◌≤◌, not, ◌==◌, ◌↔◌, filter, [], length, IsTrue, IfOk, IfSome, OnOk, OnErr};
ghost use Rattle.lab_positions.specs.Position.{Position, start};
ghost use Rattle.std.specs.Bool.{OnTrue, OnFalse};
ghost use Rattle.lab_positions.specs.declared.sought.TheConstants.{MAX_SOUGHT};
ghost use Rattle.lab_positions.specs.Sought.{is_break, with_break};
ghost use Rattle.lab_positions.specs.Forward.{forward};
ghost use Rattle.lab_positions.specs.Backward.{latest, edge, backward};
ghost use Rattle.lab_positions.specs.Changes.{is_change, changed, with_board, rebased};
ghost use Rattle.lab_positions.specs.Looking.{shown, back_why, back_steps};
ghost use Rattle.lab_positions.specs.Places.{PlaceState, SessionState, IsOnTime, IsFrom, IsReached, position_at};
ghost use Rattle.lab_positions.specs.declared.until.Until.TheVariants.{Never};

use crate::change::Change;
use crate::found::Found;
use crate::going::{go, go_forward, room, watched};
use crate::least::least;
use crate::looking::look;
use crate::place::Place;
use crate::rungs::{nearest, no_rungs};
use crate::sought::Sought;
use crate::stop::Stop;
use crate::timing::Timing;
use crate::until::Until;
use crate::watch::Watch;
use device_model::Device;
use hart_board::{Board, Events};
use hart_words::WantOfMemory;
use std::alloc::Global;
use std::marker::Model;

// Why going back stops where no reason holds, by whether it went all the way.
fn edge(whole: bool) -> Stop
    ensures { result ≡ edge whole }
{
    if whole { Stop::Begin } else { Stop::Bound }
}

/// A board that is stepped forwards and back from a base, which is its start or the state after the
/// latest change.
#[derive(Drop)]
pub struct Session<D: Device> {
    events: Events,
    timing: Timing,
    sought: Sought,
    base: Place<D>,
    place: Place<D>,
    // Some places on the way, from which the way back is shorter. No answer depends on them.
    rungs: Vec<Place<D>>,
}

impl<D: Device> Model for Session<D> {
    ghost use Rattle.lab_positions.specs.Places.{SessionState, IsSteppedFrom};

    ghost Value = { SessionState };

    ghost view = { λ s. record { events = s.events; timing = s.timing; search = s.sought; base = s.base.position; here = s.place.position } };

    ghost invariant = { λ s. IsSteppedFrom D.means s.timing s.events s.base s.place s.rungs.items };
}

impl<D: Device> Session<D> {
    /// A session on this board, which stands before its first step. Nothing is sought.
    pub fn new(
        alloc: Global,
        board: Board<D>,
        events: Events,
        timing: Timing,
    ) -> Result<Session<D>, WantOfMemory>
        requires shape { events.shape ≡ board.outside.clic.shape }
        requires bare { board.kept ≡ [] }
        ensures { IfOk result (λ session. session ≡ record { events = events; timing = timing; search = record { breaks = []; watches = []; until = Never }; base = start D.means events.list board; here = start D.means events.list board }) }
    {
        let base = Place::start(board, &events);
        let place = base.copy(alloc)?;
        Ok(Session {
            events,
            timing,
            sought: Sought::new(),
            base,
            place,
            rungs: no_rungs(alloc),
        })
    }

    /// How many steps were made in all.
    pub fn steps(&self) -> u64
        ensures { result ≡ self.now.here.steps }
    {
        self.place.steps()
    }

    /// How many steps were made when the base was reached.
    pub fn first(&self) -> u64
        ensures { result ≡ self.now.base.steps }
    {
        self.base.steps()
    }

    /// The board as it stands now.
    pub fn board(&self) -> &Board<D>
        ensures { result.now ≡ self.now.here.stand.board }
    {
        self.place.board()
    }

    /// What stands now is the board after as many steps from the base as were made since. It takes no
    /// time.
    pub fn is_reached(&self)
        ensures { IsFrom D.means self.now.timing self.now.events.list self.now.base self.now.here }
    {
        let _ = self.place.steps();
    }

    /// Makes at most so many steps, up to the first behind which a reason to stop holds, and says why it
    /// stopped. Where memory is wanting, none is made.
    #[tactic(auto, unfolding(crate::specs::Forward::forward))]
    pub fn forward(&mut self, alloc: Global, most: u64) -> Result<Stop, WantOfMemory>
        ensures stop { IfOk result (λ why. record { why = why; at = self.new.here } ≡ forward D.means self.old.timing self.old.events.list self.old.search most self.old.here) }
        ensures kept { self.new ≡ record self.old { here = self.new.here } }
        ensures err { OnErr result (self.new ≡ self.old) }
    {
        if let Some(code) = self.place.halted() {
            return Ok(Stop::Halt(code));
        }
        let before = watched(alloc, &self.place, &self.sought)?;
        let left = room(&self.place, most);
        Ok(go_forward(
            alloc,
            &mut self.place,
            &mut self.rungs,
            &self.events,
            self.timing,
            &self.sought,
            &before,
            left,
        ))
    }

    // A place so many steps after the start.
    fn place_at(&self, alloc: Global, steps: u64) -> Result<Place<D>, WantOfMemory>
        requires { self.now.base.steps ≤ steps }
        ensures position { IfOk result (λ place. place.position ≡ position_at D.means self.now.timing self.now.events.list self.now.base steps) }
        ensures reached { IfOk result (λ place. IsReached D.means self.now.timing self.now.events self.now.base place) }
    {
        let mut place = nearest(alloc, &self.base, &self.rungs, steps)?;
        let rest = steps - place.steps();
        go(&mut place, &self.events, self.timing, rest);
        Ok(place)
    }

    // Goes to a place.
    fn set_now(&mut self, place: Place<D>)
        requires { IsReached D.means self.old.timing self.old.events self.old.base place }
        ensures { self.new ≡ record self.old { here = place.position } }
    {
        self.place = place;
    }

    /// Goes to where the board stands after so many steps from its start on. Where memory is wanting,
    /// nothing changes.
    pub fn stand_at(&mut self, alloc: Global, steps: u64) -> Result<(), WantOfMemory>
        requires { self.old.base.steps ≤ steps }
        ensures position { OnOk result (self.new ≡ record self.old { here = position_at D.means self.old.timing self.old.events.list self.old.base steps }) }
        ensures err { OnErr result (self.new ≡ self.old) }
    {
        let place = self.place_at(alloc, steps)?;
        self.set_now(place);
        Ok(())
    }

    // The latest of so many places from this number of steps on at which a reason to stop holds.
    fn look_from(&self, alloc: Global, low: u64, count: u64) -> Result<Option<Found>, WantOfMemory>
        requires low { self.now.base.steps ≤ low }
        requires room { low + count < 2 ^ 64 }
        ensures { IfOk result (λ found. found ≡ shown (latest D.means self.now.timing self.now.events.list self.now.search count (position_at D.means self.now.timing self.now.events.list self.now.base low))) }
    {
        let mut place = self.place_at(alloc, low)?;
        look(
            alloc,
            &mut place,
            &self.events,
            self.timing,
            &self.sought,
            count,
        )
    }

    // Goes to what was found, else to where the way back ends.
    fn go_back(
        &mut self,
        alloc: Global,
        low: u64,
        whole: bool,
        found: Option<Found>,
    ) -> Result<Stop, WantOfMemory>
        requires low { self.old.base.steps ≤ low }
        requires found { IfSome found (λ f. self.old.base.steps ≤ f.steps) }
        ensures why { IfOk result (λ why. why ≡ back_why whole found) }
        ensures position { OnOk result (self.new ≡ record self.old { here = position_at D.means self.old.timing self.old.events.list self.old.base (back_steps low found) }) }
        ensures err { OnErr result (self.new ≡ self.old) }
    {
        match found {
            Some(found) => {
                self.stand_at(alloc, found.steps)?;
                Ok(found.why)
            }
            None => {
                self.stand_at(alloc, low)?;
                Ok(edge(whole))
            }
        }
    }

    /// Goes back by at most so many steps, to the latest earlier position at which a reason to stop
    /// holds, and says why it stopped. Where memory is wanting, nothing changes.
    pub fn backward(&mut self, alloc: Global, most: u64) -> Result<Stop, WantOfMemory>
        ensures stop { IfOk result (λ why. record { why = why; at = self.new.here } ≡ backward D.means self.old.timing self.old.events.list self.old.search most self.old.base self.old.here) }
        ensures kept { OnOk result (self.new ≡ record self.old { here = self.new.here }) }
        ensures err { OnErr result (self.new ≡ self.old) }
    {
        self.is_reached();
        let now = self.steps();
        let whole = now - self.first();
        let way = least(most, whole);
        let low = now - way;
        let found = self.look_from(alloc, low, way)?;
        let why = self.go_back(alloc, low, way == whole, found)?;
        Ok(why)
    }

    // Makes a place the base, where the session goes.
    fn set_base(&mut self, alloc: Global, place: Place<D>) -> Result<(), WantOfMemory>
        requires time { IsOnTime D.means self.old.events place }
        requires bare { place.position.stand.board.kept ≡ [] }
        ensures ok { OnOk result (self.new ≡ record self.old { base = place.position; here = place.position }) }
        ensures err { OnErr result (self.new ≡ self.old) }
    {
        let base = place.copy(alloc)?;
        self.base = base;
        self.place = place;
        self.rungs = no_rungs(alloc);
        Ok(())
    }

    // The place where the session stands, as it is after a change.
    fn changed_place(&self, alloc: Global, change: &Change) -> Result<Place<D>, WantOfMemory>
        requires { IsTrue (is_change self.now.here.stand.board.outside.clic.shape.inputs change.now) }
        ensures position { IfOk result (λ place. place.position ≡ with_board self.now.here (changed D.means self.now.here.stand.board change.now)) }
        ensures time { IfOk result (λ place. IsOnTime D.means self.now.events place) }
        ensures bare { IfOk result (λ place. place.position.stand.board.kept ≡ []) }
    {
        let mut place = self.place.copy(alloc)?;
        place.change(change);
        Ok(place)
    }

    /// Makes a change. What stands then is the base: nothing before it can be gone back to. Where
    /// memory is wanting, nothing changes.
    pub fn change(&mut self, alloc: Global, change: &Change) -> Result<(), WantOfMemory>
        requires { IsTrue (is_change self.old.here.stand.board.outside.clic.shape.inputs change.now) }
        ensures ok { OnOk result (self.new ≡ rebased self.old (changed D.means self.old.here.stand.board change.now)) }
        ensures err { OnErr result (self.new ≡ self.old) }
    {
        let place = self.changed_place(alloc, change)?;
        self.set_base(alloc, place)?;
        Ok(())
    }

    /// Sets a breakpoint, unless as many others stand as may be. Answers whether one stands there now.
    pub fn set_break(&mut self, at: u32) -> bool
        ensures set { self.new ≡ record self.old { search = record self.old.search { breaks = with_break at self.old.search.breaks } } }
        ensures stands { result ≡ is_break at self.new.search.breaks }
    {
        self.sought.set_break(at)
    }

    /// Takes a breakpoint away, where one stands there.
    pub fn clear_break(&mut self, at: u32)
        ensures { self.new ≡ record self.old { search = record self.old.search { breaks = filter (λ b. not (b == at)) self.old.search.breaks } } }
    {
        self.sought.clear_break(at);
    }

    /// Watches these bytes, which are told in this order, in place of those before. `false`: they are
    /// more than may be.
    pub fn set_watches(&mut self, watches: &[Watch]) -> bool
        ensures few { IsTrue result ↔ (length watches.now ≤ MAX_SOUGHT) }
        ensures set { OnTrue result (self.new ≡ record self.old { search = record self.old.search { watches = watches.now } }) }
        ensures same { OnFalse result (self.new ≡ self.old) }
    {
        self.sought.set_watches(watches)
    }

    /// Asks for a count to stop at.
    pub fn set_until(&mut self, until: Until)
        ensures { self.new ≡ record self.old { search = record self.old.search { until = until } } }
    {
        self.sought.set_until(until);
    }
}
