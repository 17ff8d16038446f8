// Measuring a folding, and choosing the better of two.
#![tactic(auto)]

ghost use Rattle.std.specs.Prelude.{◌≡◌};
ghost use Rattle.terms.specs.Answer.{answer_of};
ghost use Rattle.terms.specs.Pieces.{columns, stack_in};
ghost use Rattle.folding.specs.Calls.{measure_in, measure_of, choose_of, second_wins, winner_is};
ghost use Rattle.folding.specs.Asks.{StackIn};
ghost use Rattle.measure.specs.Inner.{better_in};

use folding::{Outline, Winner};
use stack::Stack;
use terms::{Kind, Piece, Refusal};

// Measures a folding of a stack. Placements past those of its components are not read.
fn measure_stack(kind: Kind, stack: &[Piece], flat: &[u32]) -> Result<Outline, Refusal>
    requires { columns stack.now StackIn }
    ensures { answer_of result ≡ measure_in kind (stack_in stack.now) flat.now }
{
    let (whole, _) = flat.as_chunks::<3>();
    let placements = whole.get(..stack.len()).ok_or(Refusal::ShortBuffer)?;
    if !legality::is_legal(kind, stack, placements) {
        return Err(Refusal::BrokenFolding);
    }
    Ok(outline::outline_of(stack, placements))
}

pub fn measure(file: &[u8], kind: Kind, flat: &[u32]) -> Result<Outline, Refusal>
    ensures { answer_of result ≡ measure_of kind file.now flat.now }
{
    let mut stack = Stack::new();
    stack.refill(file, kind)?;
    measure_stack(kind, stack.pieces(), flat)
}

fn second_wins(o: Outline, p: Outline) -> bool
    ensures { result ≡ second_wins o p }
{
    p < o
}

// Which of two measured foldings wins, or neither where measuring refused one of them.
pub fn better(first: Result<Outline, Refusal>, second: Result<Outline, Refusal>) -> Option<Winner>
    ensures { result ≡ winner_is (answer_of first) (answer_of second) }
{
    match (first, second) {
        (Ok(o), Ok(p)) if second_wins(o, p) => Some(Winner::Second),
        (Ok(_), Ok(_)) => Some(Winner::First),
        _ => None,
    }
}

// Which of two foldings of a stack wins.
fn better_of(kind: Kind, stack: &[Piece], first: &[u32], second: &[u32]) -> Option<Winner>
    requires { columns stack.now StackIn }
    ensures { result ≡ better_in kind (stack_in stack.now) first.now second.now }
{
    let a = measure_stack(kind, stack, first);
    let b = measure_stack(kind, stack, second);
    better(a, b)
}

pub fn choose<'a>(file: &[u8], kind: Kind, first: &'a [u32], second: &'a [u32]) -> &'a [u32]
    ensures { result.now ≡ choose_of kind file.now first.now second.now }
{
    let Ok(stack) = Stack::read(file, kind) else {
        return &first[..0];
    };
    let pieces = stack.pieces();
    let end = 3 * pieces.len();
    match better_of(kind, pieces, first, second) {
        Some(Winner::First) => &first[..end],
        Some(Winner::Second) => &second[..end],
        None => &first[..0],
    }
}
