// Laws that the definitions meet. Each is the contract of a function that does nothing.
ghost use Rattle.std.specs.Prelude.{◌≡◌, ℕ, List};
ghost use Rattle.hart_board.specs.State.{State};
ghost use Rattle.hart_board.specs.Steps.{GoesOnBefore, stands_at};
ghost use Rattle.hart_board.specs.declared.event.Event.{Event};
ghost use Rattle.lab_positions.specs.Position.{Position, rises, after, start};
ghost use Rattle.lab_positions.specs.Sought.{Search};
ghost use Rattle.lab_positions.specs.Forward.{forward_in};
ghost use Rattle.lab_positions.specs.Backward.{latest};
ghost use Rattle.lab_positions.specs.Kinds.{StopsFirst, IsLatest};
ghost use Rattle.lab_positions.specs.declared.timing.Timing.{Timing};

use device_model::Device;

/// The positions from a board's start on are those of its run: events come by steps, as in `run`, or by
/// bodies, as in a chain.
pub fn positions_are_of_the_run<D: Device>()
    ensures stand { (timing : Timing) (es : List Event) (s : State) (n : ℕ) → GoesOnBefore D.means (rises timing) es s n → (after D.means timing es (start D.means es s) n).stand ≡ stands_at D.means (rises timing) es s n }
    ensures steps { (timing : Timing) (es : List Event) (s : State) (n : ℕ) → GoesOnBefore D.means (rises timing) es s n → (after D.means timing es (start D.means es s) n).steps ≡ n }
{}

/// Going forward stops at the first reason.
pub fn forward_stops_at_the_first<D: Device>()
    ensures { (timing : Timing) (es : List Event) (search : Search) (p : Position) (n : ℕ) → StopsFirst D.means timing es search p n (forward_in D.means timing es search n p).at (forward_in D.means timing es search n p).why }
{}

/// What is found on the way back is the latest.
pub fn back_finds_the_latest<D: Device>()
    ensures { (timing : Timing) (es : List Event) (search : Search) (p : Position) (n : ℕ) → IsLatest D.means timing es search p n (latest D.means timing es search n p) }
{}
