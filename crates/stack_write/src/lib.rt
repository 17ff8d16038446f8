// The writer of stack files.
#![tactic(auto)]

ghost use Rattle.std.specs.Prelude.{◌≡◌, [], ◌∷◌, ◌++◌, ◌+◌, ◌*◌, ◌≤◌, ◌<◌, length, drop};
ghost use Rattle.terms.specs.Numbers.{most_apart};
ghost use Rattle.terms.specs.Answer.{answer_of};
ghost use Rattle.stack_write.specs.File.{low, high, bytes_of, headed};
ghost use Rattle.stack_write.specs.Call.{entry_at, Wrote};
ghost use Rattle.stack_write.specs.Inner.{Lists, word_into, body_into};

use stack::{Components, Version};
use terms::{Component, Kind, Position, Refusal, Rows, Slices};

// The version that is written.
const VERSION: Version = Version::Second;

// The writer's lists, equally long.
#[derive(Clone, Copy)]
struct Columns<'a> {
    heights: &'a [u16],
    widths: &'a [u16],
    gaps: &'a [u16],
    marks: &'a [u16],
    ghost equal: { Lists heights.now widths.now gaps.now marks.now },
}

impl Components for Columns<'_> {
    ghost count = { λ l. length l.heights.now };

    ghost at = { λ l. entry_at l.heights.now l.widths.now l.gaps.now l.marks.now };

    fn len(&self) -> usize {
        self.heights.len()
    }

    fn component(&self, p: Position) -> Component {
        let i = p.before;
        Component {
            height: Rows(u32::from(self.heights[i])),
            width: Slices(u32::from(self.widths[i])),
            gap: Rows(u32::from(self.gaps[i])),
            mark: u32::from(self.marks[i]),
        }
    }
}

// A word's two bytes, the low one first.
fn put_word(out: &mut [u8], at: usize, x: u16)
    requires { at + 2 ≤ length out.old }
    ensures { out.new ≡ word_into at x out.old }
{
    out[at..at + 2].copy_from_slice(&x.to_le_bytes());
}

fn put_header(out: &mut [u8], n: u16)
    requires { 7 ≤ length out.old }
    ensures { out.new ≡ headed n (drop 7 out.old) }
{
    out[..3].copy_from_slice(b"STK");
    put_word(out, 3, VERSION.into());
    put_word(out, 5, n);
}

impl Columns<'_> {
    // The bytes of the component at one place of the lists.
    fn put_component(&self, i: usize, out: &mut [u8])
        requires place { i < length self.now.heights.now }
        requires room { 8 ≤ length out.old }
        ensures { out.new
            ≡ bytes_of (entry_at self.now.heights.now self.now.widths.now self.now.gaps.now self.now.marks.now i ∷ []) ++ drop 8 out.old }
    {
        put_word(out, 0, self.heights[i]);
        put_word(out, 2, self.widths[i]);
        put_word(out, 4, self.gaps[i]);
        put_word(out, 6, self.marks[i]);
    }
}

// The components' bytes, eight for each.
fn put_components(lists: &Columns<'_>, out: &mut [u8])
    requires few { length lists.now.heights.now ≤ most_apart }
    requires room { 8 * length lists.now.heights.now ≤ length out.old }
    ensures { out.new
        ≡ body_into lists.now.heights.now lists.now.widths.now lists.now.gaps.now lists.now.marks.now out.old }
{
    for i in 0..lists.heights.len() {
        lists.put_component(i, &mut out[8 * i..]);
    }
}

pub fn write(
    heights: &[u16],
    widths: &[u16],
    gaps: &[u16],
    marks: &[u16],
    out: &mut [u8],
) -> Result<usize, Refusal>
    ensures { Wrote heights.now widths.now gaps.now marks.now
        out.old (answer_of result) out.new }
{
    if widths.len() != heights.len()
        || gaps.len() != heights.len()
        || marks.len() != heights.len()
    {
        return Err(Refusal::WrongLength);
    }
    let lists = Columns {
        heights,
        widths,
        gaps,
        marks,
    };
    let n = stack::check_stack(&lists, Kind::Apart)?;
    let length = 7 + 8 * n;
    if out.len() < length {
        return Err(Refusal::ShortBuffer);
    }
    put_header(out, n as u16);
    put_components(&lists, &mut out[7..]);
    Ok(length)
}
