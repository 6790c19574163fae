//! The types of operands, of which several lists share what they begin with.
ghost use Rattle.std.specs.Prelude.{◌≡◌, ◌≤◌, ◌<◌, ◌++◌, ◌∷◌, [], length, take, slice_get, Some, IfOk, OnOk};
ghost use Rattle.bds_code.specs.Chunks.{held, laid, IsWhole, AreLaid};

use bds_value::{Listed, NoMemory, Shared, Ty, Types, copy_ty, same_ty};
use std::alloc::Global;
use std::marker::Model;
use std::mem;

/// How many types a chunk has.
const CHUNK: usize = 32;

/// The most types in chunks.
const MOST: usize = 9_223_372_036_854_775_808;

type Chunks = Listed<Shared<Types>>;

/// The types of operands. Lists that begin alike may hold the chunks of what they begin with together.
#[derive(Debug, Drop)]
pub struct Shape {
    chunks: Option<Shared<Chunks>>,
    /// How many types of the chunks belong to the list.
    below: usize,
    /// The types behind them.
    top: Types,
}

impl Model for Shape {
    ghost use Rattle.std.specs.Prelude.{List};
    ghost use Rattle.std.specs.Coded.{coded_list};
    ghost use Rattle.bds_value.specs.declared.value.Ty.{Ty};
    ghost use Rattle.bds_value.specs.contracts.value.Ty as ty;
    ghost use Rattle.bds_code.specs.Chunks.{held, laid, AreLaid};

    ghost Value = { List Ty };

    ghost coded = { coded_list ty.the_row.coded };

    ghost view = { λ s. laid (held s.chunks) s.below s.top };

    ghost invariant = { λ s. AreLaid (held s.chunks) s.below s.top };
}

/// The chunks.
#[inline]
fn chunks_of(chunks: &Option<Shared<Chunks>>) -> &[Shared<Types>]
    ensures { result.now ≡ held chunks.now }
{
    match chunks {
        Some(chunks) => chunks.get().as_slice(),
        None => &[],
    }
}

/// Each chunk once more.
fn copy_chunks(alloc: Global, chunks: &[Shared<Types>]) -> Result<Chunks, NoMemory>
    ensures { IfOk result (λ copied. copied ≡ chunks.now) }
{
    let mut copied = Listed::new(alloc);
    for chunk in chunks {
        copied.push(chunk.share()?)?;
    }
    Ok(copied)
}

/// The first types of a list once more.
fn copy_front(alloc: Global, types: &[Ty]) -> Result<Types, NoMemory>
    ensures { IfOk result (λ copied. copied ≡ types.now) }
{
    let mut copied = Listed::new(alloc);
    for ty in types {
        copied.push(copy_ty(alloc, ty)?)?;
    }
    Ok(copied)
}

/// The chunks themselves, or shared once more where other lists hold them, too.
fn taken_chunks(alloc: Global, chunks: Option<Shared<Chunks>>) -> Result<Chunks, NoMemory>
    ensures { IfOk result (λ taken. taken ≡ held chunks) }
{
    match chunks {
        None => Ok(Listed::new(alloc)),
        Some(shared) => match shared.into_inner() {
            Ok(chunks) => Ok(chunks),
            Err(shared) => copy_chunks(alloc, shared.get().as_slice()),
        },
    }
}

/// Keeps so many of the first chunks.
fn cut_chunks(chunks: &mut Chunks, keeps: usize)
    ensures { chunks.new ≡ take keeps chunks.old }
{
    while keeps < chunks.len() {
        chunks.pop();
    }
}

/// Keeps so many of the first types.
fn cut_types(types: &mut Types, keeps: usize)
    ensures { types.new ≡ take keeps types.old }
{
    while keeps < types.len() {
        types.pop();
    }
}

/// So many of the first chunks, and one more.
fn with_chunk(
    alloc: Global,
    chunks: Option<Shared<Chunks>>,
    keeps: usize,
    chunk: Types,
) -> Result<Shared<Chunks>, NoMemory>
    ensures { IfOk result (λ more. more ≡ take keeps (held chunks) ++ chunk ∷ []) }
{
    let mut more = taken_chunks(alloc, chunks)?;
    cut_chunks(&mut more, keeps);
    more.push(Shared::of(alloc, chunk)?)?;
    Shared::of(alloc, more)
}

/// Has only whole chunks in use: what is used of a part of one is copied to the top.
fn settle(
    alloc: Global,
    chunks: &[Shared<Types>],
    below: &mut usize,
    top: &mut Types,
) -> Result<(), NoMemory>
    requires laid { AreLaid chunks.now below.old top.old }
    requires none { top.old ≡ [] }
    ensures laid { AreLaid chunks.now below.new top.new }
    ensures same { laid chunks.now below.new top.new ≡ laid chunks.now below.old top.old }
    ensures room { OnOk result (IsWhole below.new × length top.new < 32) }
{
    let whole = *below / CHUNK;
    let part = *below % CHUNK;
    if part > 0 {
        *top = copy_front(alloc, chunks[whole].get().as_slice().split_at(part).0)?;
        *below = whole * CHUNK;
    }
    Ok(())
}

/// Makes a chunk of the top, which is as long as one.
fn seal(
    alloc: Global,
    chunks: &mut Option<Shared<Chunks>>,
    below: &mut usize,
    top: &mut Types,
) -> Result<(), NoMemory>
    requires laid { AreLaid (held chunks.old) below.old top.old }
    requires full { length top.old ≡ 32 }
    ensures laid { AreLaid (held chunks.new) below.new top.new }
    ensures same { OnOk result (laid (held chunks.new) below.new top.new ≡ laid (held chunks.old) below.old top.old) }
    ensures room { OnOk result (IsWhole below.new × length top.new < 32) }
{
    let count = *below;
    if count >= MOST {
        return Err(NoMemory);
    }
    let old = mem::replace(chunks, None);
    let chunk = mem::replace(top, Listed::new(alloc));
    *below = 0;
    let more = with_chunk(alloc, old, count / CHUNK, chunk)?;
    *chunks = Some(more);
    *below = count + CHUNK;
    Ok(())
}

/// Has the top be shorter than a chunk.
fn make_room(
    alloc: Global,
    chunks: &mut Option<Shared<Chunks>>,
    below: &mut usize,
    top: &mut Types,
) -> Result<(), NoMemory>
    requires { AreLaid (held chunks.old) below.old top.old }
    ensures laid { AreLaid (held chunks.new) below.new top.new }
    ensures same { OnOk result (laid (held chunks.new) below.new top.new ≡ laid (held chunks.old) below.old top.old) }
    ensures room { OnOk result (IsWhole below.new × length top.new < 32) }
{
    if top.len() == 0 {
        settle(alloc, chunks_of(chunks), below, top)
    } else if top.len() >= CHUNK {
        seal(alloc, chunks, below, top)
    } else {
        Ok(())
    }
}

/// Keeps so many of the first types.
fn cut(chunks: &[Shared<Types>], below: &mut usize, top: &mut Types, keeps: usize)
    requires { AreLaid chunks.now below.old top.old }
    ensures laid { AreLaid chunks.now below.new top.new }
    ensures same { laid chunks.now below.new top.new ≡ take keeps (laid chunks.now below.old top.old) }
{
    if keeps < *below {
        *below = keeps;
        cut_types(top, 0);
    } else {
        cut_types(top, keeps - *below);
    }
}

/// The type at a place.
#[inline]
fn at<'a>(chunks: &'a [Shared<Types>], below: usize, top: &'a [Ty], place: usize) -> &'a Ty
    requires laid { AreLaid chunks.now below top.now }
    requires there { place < length (laid chunks.now below top.now) }
    ensures { slice_get (laid chunks.now below top.now) place ≡ Some result.now }
{
    if place < below {
        let chunk = chunks[place / CHUNK].get().as_slice();
        &chunk[place % CHUNK]
    } else {
        &top[place - below]
    }
}

/// The chunks once more.
fn share_chunks(chunks: &Option<Shared<Chunks>>) -> Result<Option<Shared<Chunks>>, NoMemory>
    ensures { IfOk result (λ shared. held shared ≡ held chunks.now) }
{
    match chunks {
        Some(chunks) => Ok(Some(chunks.share()?)),
        None => Ok(None),
    }
}

impl Shape {
    /// No types.
    pub fn new(alloc: Global) -> Shape
        ensures { result ≡ [] }
    {
        Shape {
            chunks: None,
            below: 0,
            top: Listed::new(alloc),
        }
    }

    /// How many types there are.
    pub fn len(&self) -> usize
        ensures { result ≡ length self.now }
    {
        self.below + self.top.len()
    }

    /// The type at a place.
    #[inline]
    pub fn at(&self, place: usize) -> &Ty
        requires { place < length self.now }
        ensures { slice_get self.now place ≡ Some result.now }
    {
        at(
            chunks_of(&self.chunks),
            self.below,
            self.top.as_slice(),
            place,
        )
    }

    /// One more type.
    pub fn push(&mut self, alloc: Global, ty: Ty) -> Result<(), NoMemory>
        ensures { OnOk result (self.new ≡ self.old ++ ty ∷ []) }
    {
        make_room(alloc, &mut self.chunks, &mut self.below, &mut self.top)?;
        self.top.push(ty)
    }

    /// Keeps so many of the first types.
    pub fn cut(&mut self, keeps: usize)
        ensures { self.new ≡ take keeps self.old }
    {
        cut(
            chunks_of(&self.chunks),
            &mut self.below,
            &mut self.top,
            keeps,
        )
    }

    /// The same list once more, which shares its chunks.
    pub fn share(&self, alloc: Global) -> Result<Shape, NoMemory>
        ensures { IfOk result (λ shared. shared ≡ self.now) }
    {
        let top = copy_front(alloc, self.top.as_slice())?;
        let chunks = share_chunks(&self.chunks)?;
        Ok(Shape {
            chunks,
            below: self.below,
            top,
        })
    }

    /// These types.
    pub fn of(alloc: Global, types: &[Ty]) -> Result<Shape, NoMemory>
        ensures { IfOk result (λ shape. shape ≡ types.now) }
    {
        let mut shape = Shape::new(alloc);
        push_all(alloc, &mut shape, types)?;
        Ok(shape)
    }

    /// These types, which share what they begin with as this list does.
    pub fn with(&self, alloc: Global, types: &[Ty]) -> Result<Shape, NoMemory>
        ensures { IfOk result (λ shape. shape ≡ types.now) }
    {
        let same = same_front(self, types);
        let mut shape = self.share(alloc)?;
        shape.cut(same);
        push_all(alloc, &mut shape, types.split_at(same).1)?;
        Ok(shape)
    }

    /// The types as a list of its own.
    #[tactic(auto, using(crate::proofs::ShapeLaws::next_one))]
    pub fn types(&self, alloc: Global) -> Result<Types, NoMemory>
        ensures { IfOk result (λ types. types ≡ self.now) }
    {
        let mut types = Listed::new(alloc);
        for place in 0..self.len() {
            types.push(copy_ty(alloc, self.at(place))?)?;
        }
        Ok(types)
    }
}

/// These types behind the others.
fn push_all(alloc: Global, shape: &mut Shape, types: &[Ty]) -> Result<(), NoMemory>
    ensures { OnOk result (shape.new ≡ shape.old ++ types.now) }
{
    for ty in types {
        shape.push(alloc, copy_ty(alloc, ty)?)?;
    }
    Ok(())
}

/// With how many of the same types both begin.
fn same_front(shape: &Shape, types: &[Ty]) -> usize
    ensures fits { result ≤ length types.now }
    ensures same { take result shape.now ≡ take result types.now }
{
    let mut same = 0;
    for ty in types {
        if same >= shape.len() || !same_ty(shape.at(same), ty) {
            return same;
        }
        same += 1;
    }
    same
}
