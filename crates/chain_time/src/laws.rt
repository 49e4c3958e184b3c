// How long services take, and how long an input waits, for every device; and which words tell of it.
ghost use Rattle.std.specs.Prelude.{◌≡◌, ◌↔◌, ℕ, List, Some};
ghost use Rattle.chain_time.specs.Counts.{CountsAreSound};
ghost use Rattle.chain_time.specs.Looping.{LoopingBurstIsBounded};
ghost use Rattle.chain_time.specs.Own.{PathIsBound};
ghost use Rattle.chain_time.specs.Response.{ResponseIsBounded, LatencyIsBounded, BurstIsBounded};
ghost use Rattle.chain_time.specs.Stretch.{StretchIsTimed, WaitIsTimed, BurstIsTimed};
ghost use Rattle.chain_time.specs.Triples.{SpellsTriples, triples_of};
ghost use Rattle.chain_time.specs.Waiting.{NoInversion, EntersAtOnce, TopBegins, EnterIsShort};
ghost use Rattle.chain_time.specs.declared.triple.Triple.{Triple};

use device_model::Device;

/// While an input waits, each move is made by a service of at least its level, or is the Enter of one;
/// and where no service is live it is an Enter.
pub fn no_inversion<D: Device>()
    ensures by { NoInversion D.means }
    ensures at_once { EntersAtOnce D.means }
{}

/// Where the top waits and its level is above the innermost one, the next move is its Enter, which costs
/// at most 14 steps. So the input with the highest level of all waits for 14 at most.
pub fn the_top_begins_at_once<D: Device>()
    ensures begins { TopBegins D.means }
    ensures short { EnterIsShort D.means }
{}

/// The bodies that a live service has made itself, with the longest way from where it stands, are never
/// more than the longest way through its handler.
pub fn the_path_is_a_bound<D: Device>()
    ensures { PathIsBound D.means }
{}

/// A stretch whose Leaves and Bodies are made by services of at least a level costs at most what those of
/// them that are live as it begins still need, and for each service that begins in it an Enter, the longest
/// way through its handler, and a Leave.
pub fn a_stretch_is_timed<D: Device>()
    ensures { StretchIsTimed D.means }
{}

/// So does a stretch in which an input waits, by the services of at least its level.
pub fn a_wait_is_timed<D: Device>()
    ensures { WaitIsTimed D.means }
{}

/// From the Enter out of the foreground to the Leave back to it, the services that begin take all the steps.
pub fn a_burst_is_timed<D: Device>()
    ensures { BurstIsTimed D.means }
{}

/// Where each service that begins is of an input of a list, and each input begins at most so many, they
/// take at most the sum over the list.
pub fn counts_are_sound()
    ensures { CountsAreSound }
{}

/// Where the services that began since the foreground ran are of a list, and no input began more often than
/// the list says: from the moment that an input waits until its service has ended, at most its response;
/// until its handler begins, at most its latency; and from the Enter out of the foreground to the Leave
/// back to it, at most the burst. Either dispatcher keeps within them.
pub fn a_table_bounds_the_times<D: Device>()
    ensures response { ResponseIsBounded D.means }
    ensures latency { LatencyIsBounded D.means }
    ensures burst { BurstIsBounded D.means }
{}

/// Under the looping dispatcher a service at the lowest level begins where another has left, but for the
/// first one, and the Leave and the Enter between them are fused: so the foreground stands still for less.
pub fn looping_saves_time<D: Device>()
    ensures { LoopingBurstIsBounded D.means }
{}

/// Triples are read of a word exactly where it spells them: each an input, its level and how often it comes,
/// in decimal without leading zeros, with a colon between two numbers and a comma between two triples.
pub fn words_spell_triples()
    ensures { (word : List ℕ) (qs : List Triple) → (triples_of word ≡ Some qs) ↔ SpellsTriples word qs }
{}
