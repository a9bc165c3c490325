// The two walks over declarations: to the end of an id, and to its size.
ghost use Rattle.std.specs.Prelude.{◌≡◌, ℕ, ◌<◌, List, IfOk, None};
ghost use Rattle.layout.specs.Kinds.{pointer_bytes};
ghost use Rattle.layout.specs.Refusals.{told};
ghost use Rattle.elements.specs.declared.Element.{Element as element_type};
ghost use Rattle.meaning.specs.Table.{Decl};
ghost use Rattle.meaning.specs.Questions.{Move, walk, most_reads, resolve_type, type_size, resolving, measuring};
ghost use Rattle.rows.specs.Rows.{decl_of, decls_of};
ghost use Rattle.rows.specs.Walks.{move_of, word_of};

use crate::row::TypeRow;
use crate::view::View;
use layout::{BtfError, BtfKind, PointerWidth};

// How many declarations a walk reads at most.
const MAX_RESOLVE_DEPTH: u32 = 32;

// What a walk does at a declaration: goes on to an id with what it carries, or ends with an answer.
// No ControlFlow, since its cases have one unnamed value: here the fields name the id and what goes on with it.
#[derive(Clone, Copy)]
pub enum Step<S> {
    Onward { id: u32, carried: S },
    Ends(u32),
}

// A walk is what it does at each declaration.
trait Walk {
    // What is carried from one declaration to the next.
    type Carried: Copy;

    ghost look: { Self → Self.Carried → ℕ → Decl → Move Self.Carried ℕ };

    fn look(
        &self,
        carried: Self::Carried,
        id: u32,
        row: &TypeRow,
    ) -> Result<Step<Self::Carried>, BtfError>
        ensures { (es : List element_type) → move_of result ≡ look self.now carried id (decl_of es row.now) };
}

// Follows Volatile, Const, Restrict, Typedef and TypeTag.
#[derive(Clone, Copy)]
struct Resolving;

impl Walk for Resolving {
    type Carried = ();

    ghost look = { λ _. resolving };

    fn look(&self, _carried: (), id: u32, row: &TypeRow) -> Result<Step<()>, BtfError> {
        match row.head.kind() {
            BtfKind::Volatile
            | BtfKind::Const
            | BtfKind::Restrict
            | BtfKind::Typedef
            | BtfKind::TypeTag => Ok(Step::Onward {
                id: row.head.size_or_type,
                carried: (),
            }),
            _ => Ok(Step::Ends(id)),
        }
    }
}

// Carries how many times the size of what comes counts.
#[derive(Clone, Copy)]
struct Measuring {
    width: PointerWidth,
}

impl Walk for Measuring {
    type Carried = u32;

    ghost look = { λ walk. measuring (pointer_bytes walk.width) };

    fn look(&self, count: u32, id: u32, row: &TypeRow) -> Result<Step<u32>, BtfError> {
        if let Some(size) = row.head.size() {
            return Ok(Step::Ends(word_of(id, u64::from(size) * u64::from(count))?));
        }
        let [element, _, len] = row.head.extra;
        match row.head.kind() {
            BtfKind::Array => Ok(Step::Onward {
                id: element,
                carried: word_of(id, u64::from(count) * u64::from(len))?,
            }),
            BtfKind::Ptr => Ok(Step::Ends(word_of(
                id,
                u64::from(self.width.bytes()) * u64::from(count),
            )?)),
            BtfKind::Unknown | BtfKind::Fwd | BtfKind::Func | BtfKind::FuncProto => {
                Err(BtfError::UnexpectedBtfType { type_id: id })
            }
            _ => Ok(Step::Onward {
                id: row.head.size_or_type,
                carried: count,
            }),
        }
    }
}

// A product at a declaration, where it is a word.
fn word_of(type_id: u32, product: u64) -> Result<u32, BtfError>
    ensures { told (λ n. n) result ≡ word_of type_id product }
{
    u32::try_from(product).map_err(|_| BtfError::InvalidTypeInfo { type_id, product })
}

impl View<'_, '_> {
    // The end of an id, and how many links were followed to it.
    // By a rule of the library, an end or a size and the links followed are a pair, whose bound its three contracts state.
    pub fn resolve_type(&self, id: u32) -> Result<(u32, u32), BtfError>
        ensures answer { (es : List element_type) → told (λ p. (p.0, p.1)) result ≡ resolve_type (decls_of es self.now.rows.now) id }
        ensures short { IfOk result (λ p. p.1 < 32) }
    {
        self.walk(&Resolving, id, ())
    }

    // The size of an id, and how many links were followed to what has it.
    pub fn type_size(&self, id: u32, width: PointerWidth) -> Result<(u32, u32), BtfError>
        ensures answer { (es : List element_type) → told (λ p. (p.0, p.1)) result ≡ type_size (pointer_bytes width) (decls_of es self.now.rows.now) id }
        ensures short { IfOk result (λ p. p.1 < 32) }
    {
        self.walk(&Measuring { width }, id, 1)
    }

    // It reads at most 32 declarations: the count of links is carried in the result and equals the definition's, at most 31.
    fn walk<W: Walk>(&self, kind: &W, id: u32, start: W::Carried) -> Result<(u32, u32), BtfError>
        ensures answer { (es : List element_type) → told (λ p. (p.0, p.1)) result ≡ walk (W.look kind.now) most_reads (decls_of es self.now.rows.now) id None start id 0 }
        ensures short { IfOk result (λ p. p.1 < 32) }
    {
        let mut at = id;
        let mut holder = None;
        let mut carried = start;
        for links in 0..MAX_RESOLVE_DEPTH {
            let row = self.row_at(holder, at)?;
            match kind.look(carried, at, row)? {
                Step::Onward {
                    id: next,
                    carried: later,
                } => {
                    holder = Some(at);
                    at = next;
                    carried = later;
                }
                Step::Ends(answer) => return Ok((answer, links)),
            }
        }
        Err(BtfError::MaximumTypeDepthReached { type_id: id })
    }
}
