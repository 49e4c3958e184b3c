// Laws that the definitions meet. Each is the contract of a function that does nothing.
ghost use Rattle.std.specs.Prelude.{◌≡◌, ◌↔◌, ◌-◌, ◌<◌, ◌≤◌, ◌⊎◌, ℕ, List, length, take, true, false, Some};
ghost use Rattle.clic_regs.specs.Shape.{plain_shape};
ghost use Rattle.hart_memory.specs.Image.{ImageView};
ghost use Rattle.hart_board.specs.State.{State, reset};
ghost use Rattle.hart_board.specs.Outside.{reset_outside};
ghost use Rattle.board_inputs.specs.ImageLoading.{loaded};
ghost use Rattle.hart_monitor.specs.Numbers.{IsNumber, number_in, most_number};
ghost use Rattle.hart_monitor.specs.Spelling.{Spells};
ghost use Rattle.hart_monitor.specs.Lines.{command_of};
ghost use Rattle.hart_monitor.specs.Stopping.{stops_in};
ghost use Rattle.hart_monitor.specs.StopKinds.{StopsBy};
ghost use Rattle.hart_monitor.specs.Breaks.{is_break, with_break};
ghost use Rattle.hart_monitor.specs.Texts.{back_line};
ghost use Rattle.hart_monitor.specs.Session.{Session, IsPlain, KeepsFirst, outcome};
ghost use Rattle.hart_monitor.specs.declared.breakpoints.TheConstants.{MAX_BREAKS};
ghost use Rattle.hart_monitor.specs.declared.command.Command.{Command};
ghost use Rattle.hart_monitor.specs.declared.command.Command.TheVariants.{Back};
ghost use Rattle.hart_memory.specs.declared.address_map.TheConstants.{MAX_KEPT};

use device_model::Device;
use hart_board::laws::kept_states_stay;

/// A text gives a number exactly where it is a text of the number, which is in the range.
pub fn numbers_are_spelled()
    ensures { (least most n : ℕ) (text : List ℕ) → most ≤ most_number → (number_in least most text ≡ Some n) ↔ (IsNumber text n × (least ≤ n) × (n ≤ most)) }
{}

/// A line gives a command exactly where it spells it.
pub fn commands_are_spelled()
    ensures { (line : List ℕ) (c : Command) → (command_of line ≡ Some c) ↔ Spells line c }
{}

/// A board that was made in the plain shape is one that a script is for, also once an image is loaded.
pub fn new_boards_are_plain<D: Device>()
    ensures made { (device : List ℕ) → IsPlain (reset (reset_outside D.means plain_shape device)) }
    ensures loaded { (i : ImageView) (s : State) → IsPlain s → IsPlain (loaded i s) }
{}

/// A run stops at the first step after which the board has halted or a breakpoint stands at pc, which are tested in this
/// order, else where as many steps were made as might be; a step that finds no vector isn't made, and ends it.
pub fn runs_stop_at_the_first<D: Device>()
    ensures { (breaks : List ℕ) (n : ℕ) (s : State) → StopsBy D.means breaks s n (stops_in D.means breaks n s).state (stops_in D.means breaks n s).why }
{}

/// `back` straight after a `step`, a `run` or a `line` leaves all as it was before it, with what was kept before, but for the
/// earliest where as many were kept as may be. It tells pc as it was.
pub fn back_undoes<D: Device>()
    ensures session { (c : Command) (s : Session) → KeepsFirst c → (outcome D.means Back (outcome D.means c s).session).session ≡ record { board = record s.board { kept = take (MAX_KEPT - 1) s.board.kept }; breaks = s.breaks } }
    ensures text { (c : Command) (s : Session) → KeepsFirst c → (outcome D.means Back (outcome D.means c s).session).text ≡ back_line true s.board.pc }
{
    kept_states_stay::<D>();
}

/// A breakpoint stands where it was set, unless it stood nowhere before and there was no room. The others stay, and there
/// are never more than there may be.
pub fn breakpoints_stand()
    ensures stands { (at : ℕ) (breaks : List ℕ) → (is_break at breaks ≡ true) ⊎ (length breaks < MAX_BREAKS) → is_break at (with_break at breaks) ≡ true }
    ensures full { (at : ℕ) (breaks : List ℕ) → is_break at breaks ≡ false → MAX_BREAKS ≤ length breaks → with_break at breaks ≡ breaks }
    ensures others { (b at : ℕ) (breaks : List ℕ) → ¬ (at ≡ b) → is_break b (with_break at breaks) ≡ is_break b breaks }
    ensures few { (at : ℕ) (breaks : List ℕ) → length breaks ≤ MAX_BREAKS → length (with_break at breaks) ≤ MAX_BREAKS }
{}
