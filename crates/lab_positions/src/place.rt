// A board at a position.
ghost use Rattle.std.specs.Prelude.{◌≡◌, ◌+◌, ◌^◌, ◌<◌, ◌≤◌, [], IsTrue, IfOk};
ghost use Rattle.hart_board.specs.State.{State};
ghost use Rattle.hart_board.specs.Run.{standing};
ghost use Rattle.hart_board.specs.Step.{step};
ghost use Rattle.lab_positions.specs.Position.{rises, settled, next, start, told_of};
ghost use Rattle.lab_positions.specs.Places.{IsOnTime, bare_of};
ghost use Rattle.lab_positions.specs.Sought.{is_until};
ghost use Rattle.lab_positions.specs.Changes.{is_change, changed, with_board};

use crate::change::Change;
use crate::timing::{Timing, rises};
use crate::until::Until;
use device_model::Device;
use hart_board::laws::kept_states_stay;
use hart_board::{Ahead, Board, Events, take_due, take_events};
use hart_memory::Banks;
use hart_report::Stepped;
use hart_words::WantOfMemory;
use std::alloc::Global;
use std::marker::Model;

/// A board that stands at a position, and the event that is ahead.
#[derive(Drop)]
pub(crate) struct Place<D: Device> {
    pub(crate) board: Board<D>,
    pub(crate) steps: u64,
    pub(crate) fresh: bool,
    pub(crate) count: u64,
    pub(crate) ahead: Ahead,
}

impl<D: Device> Model for Place<D> {
    ghost use Rattle.lab_positions.specs.Places.{PlaceState};

    ghost Value = { PlaceState };

    ghost view = { λ p. record { position = record { steps = p.steps; fresh = p.fresh; stand = record { count = p.count; board = p.board } }; ahead = p.ahead } };
}

impl<D: Device> Place<D> {
    /// The board before its first step: the events of count 0 come.
    pub(crate) fn start(mut board: Board<D>, events: &Events) -> Place<D>
        requires shape { events.now.shape ≡ board.outside.clic.shape }
        ensures position { result.position ≡ start D.means events.now.list board }
        ensures time { IsOnTime D.means events.now result }
        ensures kept { result.position.stand.board.kept ≡ board.kept }
    {
        events.in_order();
        let ahead = take_due(&mut board, events, 0, 0);
        Place {
            board,
            steps: 0,
            fresh: true,
            count: 0,
            ahead,
        }
    }

    /// What follows a step of which this was told: it is counted, and events come.
    #[inline(always)]
    pub(crate) fn settle(&mut self, events: &Events, timing: Timing, told: &Stepped)
        requires room { self.old.position.steps + 1 < 2 ^ 64 }
        requires time { IsOnTime D.means events.now self.old }
        ensures position { self.new.position ≡ settled D.means timing events.now.list self.old.position (record { told = told.now; state = self.old.position.stand.board }) }
        ensures time { IsOnTime D.means events.now self.new }
        ensures kept { self.new.position.stand.board.kept ≡ self.old.position.stand.board.kept }
    {
        self.steps += 1;
        self.fresh = rises(timing, told);
        if self.fresh {
            self.count += 1;
            take_events(&mut self.board, events, self.count, &mut self.ahead);
        }
    }

    /// One step, but for one that finds no vector, which isn't made.
    #[inline(always)]
    pub(crate) fn step(&mut self, events: &Events, timing: Timing) -> Stepped
        requires room { self.old.position.steps + 1 < 2 ^ 64 }
        requires time { IsOnTime D.means events.now self.old }
        ensures told { result ≡ told_of D.means self.old.position }
        ensures position { self.new.position ≡ next D.means timing events.now.list self.old.position }
        ensures time { IsOnTime D.means events.now self.new }
        ensures kept { self.new.position.stand.board.kept ≡ self.old.position.stand.board.kept }
    {
        kept_states_stay::<D>();
        let told = self.board.step();
        if let Stepped::VectorFault(_) = told {
            return told;
        }
        self.settle(events, timing, &told);
        told
    }

    /// The code with which the board has halted.
    #[inline(always)]
    pub(crate) fn halted(&self) -> Option<u32>
        ensures { result ≡ D.means.halted self.now.position.stand.board.outside.device }
    {
        self.board.halted()
    }

    pub(crate) fn board(&self) -> &Board<D>
        ensures { result.now ≡ self.now.position.stand.board }
    {
        &self.board
    }

    /// A copy of the memory.
    pub(crate) fn memory(&self, alloc: Global) -> Result<Banks, WantOfMemory>
        ensures { IfOk result (λ banks. banks.present ≡ self.now.position.stand.board.memory) }
    {
        self.board.banks().copy(alloc)
    }

    pub(crate) fn steps(&self) -> u64
        ensures { result ≡ self.now.position.steps }
    {
        self.steps
    }

    /// Whether the position is the one that is asked for.
    pub(crate) fn is_until(&self, until: Until) -> bool
        ensures { result ≡ is_until until self.now.position }
    {
        match until {
            Until::Never => false,
            Until::Steps(steps) => self.steps == steps,
            Until::Count(count) => self.fresh && self.count == count,
        }
    }

    /// Changes the board.
    #[tactic(auto, unfolding(hart_board::specs::Event::arrived, hart_board::specs::Event::arrived_outside, hart_board::specs::Event::applied))]
    pub(crate) fn change(&mut self, change: &Change)
        requires { IsTrue (is_change self.old.position.stand.board.outside.clic.shape.inputs change.now) }
        ensures { self.new ≡ record self.old { position = with_board self.old.position (changed D.means self.old.position.stand.board change.now) } }
    {
        match *change {
            Change::Pc(pc) => self.board.set_pc(pc),
            Change::Byte { at, value } => self.board.place(at, value),
            Change::Outside(what) => match self.board.halted() {
                Some(_) => {}
                None => self.board.apply(&what),
            },
        }
    }

    /// A place where an equal board stands, of which nothing is kept.
    pub(crate) fn copy(&self, alloc: Global) -> Result<Place<D>, WantOfMemory>
        ensures { IfOk result (λ place. place ≡ bare_of self.now) }
    {
        Ok(Place {
            board: self.board.copy(alloc)?,
            steps: self.steps,
            fresh: self.fresh,
            count: self.count,
            ahead: self.ahead,
        })
    }
}
