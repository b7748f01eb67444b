// Putting the tokens together.

ghost use Rattle.std.specs.Prelude.{◌≡◌, map, IfOk};
ghost use Rattle.sexpr_reader.specs.Grammar.{depth_limit};
ghost use Rattle.sexpr_reader.specs.View.{datum_at, datum_of, datums_of};
ghost use Rattle.sexpr_reader.specs.Reader.{start, in_row, with_item, opened, closed, step, ended, not_empty};
ghost use Rattle.sexpr_reader.specs.Parts.{state_of, Goes, Gives};

use crate::atoms::Meaning;
use crate::scan::Shape;
use crate::sexps::{Sexp, SexpList, SexpNode};
use grift_base::lists::OutOfMemory;
use grift_base::places::Pos;
use grift_base::refusals::{FrontFault, Refusal, RefusalKind};
use std::alloc::Global;
use std::mem;

/// The most lists that may be open at once.
const DEPTH_LIMIT: usize = 200;

/// A bracket and its place.
#[derive(Clone, Copy)]
pub struct Bracket {
    pub shape: Shape,
    pub pos: Pos,
}

/// An open list: its bracket, and what stands before it in the list around it.
#[derive(Drop)]
struct OpenList {
    bracket: Bracket,
    before: Vec<Sexp>,
}

/// What the tokens so far are: the open lists, the innermost last, and the elements of the innermost so far.
#[derive(Drop)]
pub struct Reader {
    alloc: Global,
    around: Vec<OpenList>,
    items: Vec<Sexp>,
}

fn refused<T>(kind: RefusalKind, pos: Pos) -> Result<T, FrontFault>
    ensures { result ≡ Err (FrontFault.Refused (record { kind = kind; pos = pos })) }
{
    Err(FrontFault::Refused(Refusal { kind, pos }))
}

// These elements as a list of their own.
fn list_of(alloc: Global, mut items: Vec<Sexp>) -> Result<SexpList, OutOfMemory>
    ensures { IfOk result (λ list. datums_of list ≡ in_row (map datum_of items.items)) }
{
    let mut list = SexpList::Nil;
    while let Some(last) = items.pop() {
        list = SexpList::Cons(Box::new(alloc, last)?, Box::new(alloc, list)?);
    }
    Ok(list)
}

impl Reader {
    /// Nothing is read yet.
    pub fn new(alloc: Global) -> Reader
        ensures { state_of result ≡ start }
    {
        Reader {
            alloc,
            around: Vec::new(alloc),
            items: Vec::new(alloc),
        }
    }

    // One element more of the innermost list.
    fn add(&mut self, pos: Pos, node: SexpNode) -> Result<(), FrontFault>
        ensures { Goes result (state_of self.new) (Ok (with_item (datum_at pos node) (state_of self.old))) }
    {
        self.items
            .push(Sexp { pos, node })
            .map_err(OutOfMemory::from)?;
        Ok(())
    }

    fn open(&mut self, bracket: Bracket) -> Result<(), FrontFault>
        ensures { Goes result (state_of self.new) (opened depth_limit bracket (state_of self.old)) }
    {
        if self.around.len() >= DEPTH_LIMIT {
            return refused(RefusalKind::TooDeep, bracket.pos);
        }
        let before = mem::replace(&mut self.items, Vec::new(self.alloc));
        let list = OpenList { bracket, before };
        self.around.push(list).map_err(OutOfMemory::from)?;
        Ok(())
    }

    fn close(&mut self, bracket: Bracket) -> Result<(), FrontFault>
        ensures { let before = state_of self.old in
            Goes result (state_of self.new) (closed bracket before.around before.items) }
    {
        let Some(innermost) = self.around.pop() else {
            return refused(RefusalKind::Unopened, bracket.pos);
        };
        if innermost.bracket.shape != bracket.shape {
            return refused(RefusalKind::Unopened, bracket.pos);
        }
        let items = mem::replace(&mut self.items, innermost.before);
        let list = list_of(self.alloc, items)?;
        self.add(innermost.bracket.pos, SexpNode::List(list))
    }

    /// Takes the next token: its place and what it is by itself. After an `Err` nothing is known of what was read.
    pub fn take(&mut self, pos: Pos, meaning: Meaning) -> Result<(), FrontFault>
        ensures { Goes result (state_of self.new) (step depth_limit pos meaning (state_of self.old)) }
    {
        match meaning {
            Meaning::Opening(shape) => self.open(Bracket { shape, pos }),
            Meaning::Closing(shape) => self.close(Bracket { shape, pos }),
            Meaning::Int(number) => self.add(pos, SexpNode::Int(number)),
            Meaning::Bool(truth) => self.add(pos, SexpNode::Bool(truth)),
            Meaning::Symbol(name) => self.add(pos, SexpNode::Symbol(name)),
            Meaning::Refused(kind) => refused(kind, pos),
        }
    }

    /// The s-expressions that were read, where the text ends here.
    pub fn finish(self) -> Result<SexpList, FrontFault>
        ensures { Gives result (not_empty (ended (state_of self).around (state_of self).items)) }
    {
        if let Some(innermost) = self.around.last() {
            return refused(RefusalKind::Unclosed, innermost.bracket.pos);
        }
        if self.items.is_empty() {
            return refused(RefusalKind::Empty, Pos { line: 1, col: 1 });
        }
        Ok(list_of(self.alloc, self.items)?)
    }
}
