// A chain with direct services to its end.
ghost use Rattle.std.specs.Prelude.{◌≡◌, ◌+◌, ◌<◌, ◌^◌, true, is_ok, IfOk, IfErr, IsTrue};
ghost use Rattle.board_outside.specs.Sink.{Writes};
ghost use Rattle.hart_board.specs.Steps.{GoesOnBefore};
ghost use Rattle.chain_core.specs.ChainRun.{is_body};
ghost use Rattle.chain_moves.specs.Words.{HasDispatcher};
ghost use Rattle.chain_core.specs.End.{services_within};
ghost use Rattle.chain_core.specs.Chain.{is_whole};
ghost use Rattle.chain_core.specs.Both.{Starts};
ghost use Rattle.chain_core.specs.Closing.{ComesTo, Closes};
ghost use Rattle.chain_core.specs.declared.chain_end.ChainEnd.TheVariants.{Done, SinkFailed};
ghost use Rattle.chain_direct.specs.DirectMoves.{direct_machine, direct_start};
ghost use Rattle.chain_direct.specs.DirectWatched.{nothing_direct};
ghost use Rattle.chain_direct.specs.DirectText.{text_to, direct_end, direct_run, dead_in_run, direct_board, direct_text};
ghost use Rattle.chain_direct.specs.DirectChain.{begun_to, StopsInStep, StopsDirect, AgreesWhereOver};

use crate::direct_rounds::direct_round;
use crate::direct_watch::DirectWatch;
use board_outside::{Sink, SinkFault};
use chain_core::ending::close;
use chain_core::{ChainEnd, Course, Ended, Round, can_start};
use chain_moves::Dispatcher;
use device_model::Device;
use hart_board::laws::kept_states_stay;
use hart_board::{Board, Events, take_due};

fn ended(end: ChainEnd, steps: u64) -> Ended
    ensures { result ≡ record { end = end; steps = steps } }
{
    Ended { end, steps }
}

// The board has halted with no service live.
fn done(course: &Course, watch: &DirectWatch, steps: u64) -> Ended
    requires { course.now.services + watch.now.begun < 2 ^ 64 }
    ensures { result ≡ record { end = Done steps course.now.bodies (course.now.services + watch.now.begun); steps = steps } }
{
    let end = ChainEnd::Done {
        steps,
        bodies: course.bodies,
        services: course.services + watch.begun(),
    };
    ended(end, steps)
}

// Rounds until the chain ends, with the lines of its steps and services.
fn advance<D: Device, W: Sink>(
    board: &mut Board<D>,
    watch: &mut DirectWatch,
    d: Dispatcher,
    events: &Events,
    bound: u64,
    trace: bool,
    out: &mut W,
) -> Result<Ended, SinkFault>
    requires starts { Starts D.means events.now.list d board.old }
    requires new { watch.old ≡ nothing_direct }
    requires shape { events.now.shape ≡ board.old.outside.clic.shape }
    ensures ended { let due = direct_end D.means events.now.list d bound board.old in
        IfOk result (λ ended. ComesTo due (direct_board D.means events.now.list d bound board.old) (dead_in_run (direct_run D.means events.now.list bound board.old)) (text_to D.means events.now.list trace board.old due.steps) ended board.new watch.new.chained.dead (W.told out.old) (W.told out.new)) }
    ensures stopped { IfErr result (λ fault. StopsInStep D.means events.now.list d trace bound board.old board.new (W.told out.old) (W.told out.new)) }
{
    let ahead = take_due(board, events, 0, 0);
    let mut course = Course {
        bodies: 0,
        depth: 0,
        services: 0,
        ahead,
    };
    let mut steps: u64 = 0;
    loop {
        match direct_round(
            board,
            watch,
            d,
            events,
            &mut course,
            trace,
            out,
            bound - steps,
        )? {
            Round::Made(count) => steps += count,
            Round::Failed(kind, count) => {
                let bodies = course.bodies;
                return Ok(ended(ChainEnd::Broken { kind, bodies }, steps + count));
            }
            Round::Ended => return Ok(done(&course, watch, steps)),
            Round::Spent => return Ok(ended(ChainEnd::BudgetSpent, bound)),
        }
    }
}

// The report of a chain whose rounds came to this end, where the sink didn't fail in them.
fn close_chain<D: Device, W: Sink>(
    rounds: Result<Ended, SinkFault>,
    watch: &DirectWatch,
    board: &Board<D>,
    out: &mut W,
) -> ChainEnd
    ensures { Closes D.means rounds watch.now.chained.dead board.now result (W.told out.old) (W.told out.new) }
{
    close(rounds, &watch.chained, board, out)
}

/// Runs the board under its dispatcher with these events, at most so many steps, as the machine with
/// direct services runs that starts from it. It writes the trace, where it is asked for, the services,
/// direct ones among them, and the report. Where the sink fails in a step's lines, the board stands after
/// that step; where it fails in the report, at the end of the chain. The watch is of no use afterwards.
/// Nothing is allocated.
pub fn chain_direct<D: Device, W: Sink>(
    board: &mut Board<D>,
    watch: &mut DirectWatch,
    dispatcher: Dispatcher,
    events: &Events,
    bound: u64,
    trace: bool,
    out: &mut W,
) -> ChainEnd
    requires has { HasDispatcher dispatcher board.old.memory.rom }
    requires level { board.old.csrs.mil ≡ 0 }
    requires new { watch.old ≡ nothing_direct }
    requires shape { events.now.shape ≡ board.old.outside.clic.shape }
    // The end is that of the machine, and the board stands where its own run of as many steps leaves it.
    ensures end { IsTrue (is_whole result) → (result ≡ (direct_end D.means events.now.list dispatcher bound board.old).end) × (board.new ≡ direct_board D.means events.now.list dispatcher bound board.old) }
    ensures text { Writes (is_whole result) (W.told out.old) (W.told out.new) (direct_text D.means events.now.list dispatcher trace bound board.old) }
    ensures stopped { result ≡ SinkFailed → StopsDirect D.means events.now.list dispatcher trace bound board.old board.new (W.told out.old) (W.told out.new) }
    // The services read off the board's run are those of the machine within the bound.
    ensures services { begun_to D.means events.now.list board.old (direct_end D.means events.now.list dispatcher bound board.old).steps ≡ services_within (direct_machine D.means events.now.list) dispatcher bound (direct_start D.means events.now.list board.old) }
    // Until then the board's run goes on: none of those steps finds that it has halted, or finds no vector.
    ensures goes { GoesOnBefore D.means is_body events.now.list board.old (direct_end D.means events.now.list dispatcher bound board.old).steps }
    // Where the chain is done, the board agrees with the machine's last state.
    ensures state { AgreesWhereOver (direct_end D.means events.now.list dispatcher bound board.old).end (direct_board D.means events.now.list dispatcher bound board.old) (direct_run D.means events.now.list bound board.old) }
    ensures kept { board.new.kept ≡ board.old.kept }
{
    can_start(board, dispatcher, events);
    kept_states_stay::<D>();
    let rounds = advance(board, watch, dispatcher, events, bound, trace, out);
    close_chain(rounds, watch, board, out)
}
