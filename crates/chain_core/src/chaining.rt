// A chain to its end.
ghost use Rattle.std.specs.Prelude.{◌≡◌, true, IfOk, IfErr, IsTrue};
ghost use Rattle.board_outside.specs.Sink.{Writes};
ghost use Rattle.hart_board.specs.Steps.{GoesOnBefore};
ghost use Rattle.chain_core.specs.ChainRun.{is_body, read_to};
ghost use Rattle.chain_moves.specs.Words.{HasDispatcher};
ghost use Rattle.chain_moves.specs.Watched.{nothing_watched};
ghost use Rattle.chain_moves.specs.Moves.{servicing_machine};
ghost use Rattle.chain_moves.specs.Start.{begun};
ghost use Rattle.chain_core.specs.End.{services_within};
ghost use Rattle.chain_core.specs.Chain.{chain_end, machine_run, board_after, dead_at, steps_part, chain_text, is_whole, StopsInSteps, Stops, AgreesWhereDone};
ghost use Rattle.chain_core.specs.Both.{Starts};
ghost use Rattle.chain_core.specs.Closing.{ComesTo};
ghost use Rattle.chain_core.specs.declared.chain_end.ChainEnd.TheVariants.{Done, SinkFailed};

use crate::chain_end::ChainEnd;
use crate::course::Course;
use crate::ended::Ended;
use crate::ending::close;
use crate::round::Round;
use crate::rounds::round;
use board_outside::{Sink, SinkFault};
use chain_moves::{Dispatcher, Watch};
use device_model::Device;
use hart_board::laws::kept_states_stay;
use hart_board::{Board, Events, take_due};

/// A chain can start from this board under its dispatcher, with these events. It takes no time.
pub fn can_start<D: Device>(board: &Board<D>, dispatcher: Dispatcher, events: &Events)
    requires has { HasDispatcher dispatcher board.now.memory.rom }
    requires level { board.now.csrs.mil ≡ 0 }
    requires shape { events.now.shape ≡ board.now.outside.clic.shape }
    ensures { Starts D.means events.now.list dispatcher board.now }
{
    board.in_range();
    events.in_order();
}

fn ended(end: ChainEnd, steps: u64) -> Ended
    ensures { result ≡ record { end = end; steps = steps } }
{
    Ended { end, steps }
}

// The board has halted with no service live.
fn done(course: &Course, steps: u64) -> Ended
    ensures { result ≡ record { end = Done steps course.now.bodies course.now.services; steps = steps } }
{
    let end = ChainEnd::Done {
        steps,
        bodies: course.bodies,
        services: course.services,
    };
    ended(end, steps)
}

// Rounds until the chain ends, with the lines of its steps and services.
fn advance<D: Device, W: Sink>(
    board: &mut Board<D>,
    watch: &mut Watch,
    d: Dispatcher,
    events: &Events,
    bound: u64,
    trace: bool,
    out: &mut W,
) -> Result<Ended, SinkFault>
    requires starts { Starts D.means events.now.list d board.old }
    requires new { watch.old ≡ nothing_watched }
    requires shape { events.now.shape ≡ board.old.outside.clic.shape }
    ensures ended { let due = chain_end D.means events.now.list d bound board.old in
        IfOk result (λ ended. ComesTo due (board_after D.means events.now.list d bound board.old) (dead_at D.means events.now.list bound board.old) (steps_part D.means events.now.list d trace bound board.old) ended board.new watch.new.dead (W.told out.old) (W.told out.new)) }
    ensures stopped { IfErr result (λ fault. StopsInSteps D.means events.now.list d trace bound board.old board.new (W.told out.old) (W.told out.new)) }
{
    let ahead = take_due(board, events, 0, 0);
    let mut course = Course {
        bodies: 0,
        depth: 0,
        services: 0,
        ahead,
    };
    let mut steps: u64 = 0;
    loop {
        match round(
            board,
            watch,
            d,
            events,
            &mut course,
            trace,
            out,
            bound - steps,
        )? {
            Round::Made(count) => steps += count,
            Round::Failed(kind, count) => {
                let bodies = course.bodies;
                return Ok(ended(ChainEnd::Broken { kind, bodies }, steps + count));
            }
            Round::Ended => return Ok(done(&course, steps)),
            Round::Spent => return Ok(ended(ChainEnd::BudgetSpent, bound)),
        }
    }
}

/// Runs the board under its dispatcher with these events, at most so many steps, as the servicing
/// machine runs that starts from it. It writes the trace, where it is asked for, the services, and the
/// report. Where the sink fails in a step's lines, the board stands after that step; where it fails in
/// the report, at the end of the chain. The watch is of no use afterwards. Nothing is allocated.
pub fn chain<D: Device, W: Sink>(
    board: &mut Board<D>,
    watch: &mut Watch,
    dispatcher: Dispatcher,
    events: &Events,
    bound: u64,
    trace: bool,
    out: &mut W,
) -> ChainEnd
    requires has { HasDispatcher dispatcher board.old.memory.rom }
    requires level { board.old.csrs.mil ≡ 0 }
    requires new { watch.old ≡ nothing_watched }
    requires shape { events.now.shape ≡ board.old.outside.clic.shape }
    // The end is that of the servicing machine, and the board stands where its own run of as many
    // steps leaves it.
    ensures end { IsTrue (is_whole result) → (result ≡ (chain_end D.means events.now.list dispatcher bound board.old).end) × (board.new ≡ board_after D.means events.now.list dispatcher bound board.old) }
    ensures text { Writes (is_whole result) (W.told out.old) (W.told out.new) (chain_text D.means events.now.list dispatcher trace bound board.old) }
    ensures stopped { result ≡ SinkFailed → Stops D.means events.now.list dispatcher trace bound board.old board.new (W.told out.old) (W.told out.new) }
    // The services read off the board's run are those of the servicing machine within the bound.
    ensures services { (read_to D.means events.now.list board.old (chain_end D.means events.now.list dispatcher bound board.old).steps).services ≡ services_within (servicing_machine D.means events.now.list) dispatcher bound (begun D.means events.now.list board.old) }
    // Until then the board's run goes on: none of those steps finds that it has halted, or finds no vector.
    ensures goes { GoesOnBefore D.means is_body events.now.list board.old (chain_end D.means events.now.list dispatcher bound board.old).steps }
    // Where the chain is done, the board agrees with the servicing machine's last state.
    ensures state { AgreesWhereDone (chain_end D.means events.now.list dispatcher bound board.old).end (board_after D.means events.now.list dispatcher bound board.old) (machine_run D.means events.now.list bound board.old) }
    ensures kept { board.new.kept ≡ board.old.kept }
{
    can_start(board, dispatcher, events);
    kept_states_stay::<D>();
    let rounds = advance(board, watch, dispatcher, events, bound, trace, out);
    close(rounds, watch, board, out)
}
