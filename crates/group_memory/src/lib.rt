// What is known of a group from earlier searches. The groups of a stack are asked for again and again while the limit falls,
// and what was found for a limit holds for the lower ones: an answer that keeps them stands without a search, and one that
// does not is still a bound from below. Each group has a word of its own.
#![tactic(auto)]

ghost use Rattle.std.specs.Prelude.{◌≡◌, min, drop};
ghost use Rattle.numbers.specs.Table.{cells};
ghost use Rattle.terms.specs.Pieces.{columns};
ghost use Rattle.group_search.specs.Widths.{Narrow, LowAsks, bound_in};
ghost use Rattle.group_memory.specs.Memory.{word_width, word_height, never, Holds, MemoryAsks};
ghost use Rattle.group_memory.specs.Inner.{Small, Recalled, height_in};

use folding::Outline;
use group_search::Sought;
use numbers::CELLS;
use terms::{Piece, Rows, Slices};

// A word has room for this many heights. The other 13 bits are a width, and caps are at most 8,000.
const HEIGHTS: u32 = 524288;

// In place of a height: none is known, and the width is a bound only. No group is so high, since at most 64 components are
// folded.
const UNKNOWN: u32 = HEIGHTS - 1;

// A width over every cap.
const NEVER: u32 = 8191;

// The word of a group that was not searched yet: a bound of 0.
pub const NOTHING: u32 = UNKNOWN;

// What a word says for a limit: the outline of the group, or a width below which no cap will do. Of a height that is over the
// limit the width still is one.
fn recall(word: u32, limit: Rows) -> Result<Outline, Slices>
    ensures { Recalled word limit.0 result }
{
    let width = Slices(word / HEIGHTS);
    let height = Rows(word % HEIGHTS);
    if height.0 < UNKNOWN && height <= limit {
        Ok(Outline { width, height })
    } else {
        Err(width)
    }
}

// The word that says what was found. A search that fails without any clash rules out every cap.
fn note(found: Result<Outline, Slices>) -> u32
    requires { Small found }
    ensures width_value { word_width result ≡ min (bound_in found) never }
    ensures height_value { word_height result ≡ height_in found }
{
    match found {
        Ok(outline) => outline.width.0 * HEIGHTS + outline.height.0,
        Err(least) => least.0.min(NEVER) * HEIGHTS + UNKNOWN,
    }
}

// A search from `low` on, whose result is remembered.
fn search(
    sought: Sought,
    stack: &[Piece],
    table: &mut [u32],
    word: &mut u32,
    low: Slices,
    cap: Slices,
) -> Option<Outline>
    requires { columns stack.now (LowAsks sought.last sought.before.0 sought.flat.0) table.old
        sought.limit.0 sought.widest.0 low.0 cap.0 }
    ensures narrow { columns stack.now (Narrow sought.last sought.before.0) sought.limit.0 cap.0 result }
    ensures holds { columns stack.now (Holds sought.last sought.before.0) sought.limit.0 sought.widest.0 word.new }
    ensures beyond { drop cells table.new ≡ drop cells table.old }
{
    let found = group_search::narrowest(sought, stack, &mut table[..CELLS], low, cap);
    *word = note(found);
    found.ok()
}

// The least width up to the cap at which the group is within the limit, as `group_search::narrowest` finds it, with the help
// of the group's word, which must hold for this limit. The content of the table's cells is free afterwards.
pub fn narrowest(
    sought: Sought,
    stack: &[Piece],
    table: &mut [u32],
    word: &mut u32,
    cap: Slices,
) -> Option<Outline>
    requires { columns stack.now (MemoryAsks sought.last sought.before.0 sought.flat.0) table.old word.old
        sought.limit.0 sought.widest.0 cap.0 }
    ensures narrow { columns stack.now (Narrow sought.last sought.before.0) sought.limit.0 cap.0 result }
    ensures holds { columns stack.now (Holds sought.last sought.before.0) sought.limit.0 sought.widest.0 word.new }
    ensures beyond { drop cells table.new ≡ drop cells table.old }
{
    match recall(*word, sought.limit) {
        Ok(known) => (known.width <= cap).then_some(known),
        Err(least) => {
            let low = least.max(sought.widest);
            let too_narrow = cap < low;
            if too_narrow {
                return None;
            }
            search(sought, stack, table, word, low, cap)
        }
    }
}
