//! The parts of files, with those of an included file in the place of its include.

ghost use Rattle.std.specs.Prelude.{◌≡◌, ◌<◌, ◌≤◌, ◌+◌, ◌++◌, ℕ, List, [], ◌∷◌, true, false, length, map, reverse, None, IfOk, ◌↔◌};
ghost use Rattle.bds_value.specs.declared.TheConstants.{MAX_FILES, MAX_INCLUDES};
ghost use Rattle.bds_tree.specs.declared.stmt.Include.{Include as AnInclude};
ghost use Rattle.bds_tree.specs.StmtTree.{an_include};
ghost use Rattle.bds_tree.specs.StmtView.{part_of, script_of};
ghost use Rattle.bds_check_typing.specs.Files.{MayBeRead, path_from as path_from_of, was_read};
ghost use Rattle.bds_check_typing.specs.Numbered.{part_in};
ghost use Rattle.bds_meaning.specs.Files.{Files, paths_of};
ghost use Rattle.bds_front.specs.Joining.{GoesThrough, IsAhead, JoinsAll, JoinsOn, or_first};

use crate::front_fault::FrontFault;
use crate::one_file::read_script;
use crate::paths::path_from;
use crate::read_paths::ReadPaths;
use bds_check::holds_include;
use bds_front_numbers::number_part;
use bds_host::Host;
use bds_tree::{Include, Part, Parts, Script};
use bds_value::{At, ByteText, Listed, MAX_FILES, MAX_INCLUDES, NoMemory};
use std::alloc::Global;

/// What the files that were read have become so far.
#[derive(Drop)]
pub struct Joined {
    pub paths: ReadPaths,
    pub parts: Parts,
    /// The first include beyond the limits.
    pub beyond: Option<ByteText>,
}

/// A file whose parts are joined; it stands so deep in includes.
#[derive(Drop)]
pub struct Source {
    pub path: ByteText,
    pub file: u32,
    pub depth: u32,
}

/// Nothing was read.
pub fn nothing_joined(alloc: Global) -> Joined
    ensures paths { result.paths ≡ [] }
    ensures parts { result.parts ≡ [] }
    ensures beyond { result.beyond ≡ None }
{
    Joined {
        paths: ReadPaths::new(alloc),
        parts: Listed::new(alloc),
        beyond: None,
    }
}

/// One more file may be read at this depth.
fn may_be_read(paths: &ReadPaths, depth: u32) -> bool
    ensures { (result ≡ true) ↔ MayBeRead depth paths.now }
{
    depth <= MAX_INCLUDES && (paths.len() as u64) < MAX_FILES
}

/// An include beyond the limits; the first one counts.
fn pass_beyond(joined: &mut Joined, path: ByteText)
    ensures paths { joined.new.paths ≡ joined.old.paths }
    ensures parts { joined.new.parts ≡ joined.old.parts }
    ensures beyond { joined.new.beyond ≡ or_first joined.old.beyond (path ∷ []) }
{
    if joined.beyond.is_none() {
        joined.beyond = Some(path);
    }
}

/// Puts a part that is no include at the end, with the number of its file.
fn add_part(joined: &mut Joined, file: u32, part: Part) -> Result<(), NoMemory>
    ensures paths { joined.new.paths ≡ joined.old.paths }
    ensures parts { IfOk result (λ _. map part_of joined.new.parts ≡ map part_of joined.old.parts ++ part_in file (part_of part) ∷ []) }
    ensures beyond { joined.new.beyond ≡ joined.old.beyond }
{
    let mut part = part;
    number_part(file, &mut part);
    joined.parts.push(part)
}

/// One more file was read.
fn begin_file(
    alloc: Global,
    joined: &mut Joined,
    depth: u32,
    path: ByteText,
) -> Result<Source, NoMemory>
    requires unread { was_read path joined.old.paths ≡ false }
    requires few { length joined.old.paths < MAX_FILES }
    ensures paths { IfOk result (λ _. joined.new.paths ≡ joined.old.paths ++ path ∷ []) }
    ensures parts { joined.new.parts ≡ joined.old.parts }
    ensures beyond { joined.new.beyond ≡ joined.old.beyond }
    ensures source { IfOk result (λ s. s ≡ record { path = path; file = length joined.old.paths; depth = depth }) }
{
    let file = joined.paths.len() as u32;
    joined.paths.push(alloc, &path)?;
    Ok(Source { path, file, depth })
}

/// Joins an include: the file that it names is read where it wasn't yet and may be.
#[cycle(including)]
fn join_include<H: Host>(
    alloc: Global,
    host: &mut H,
    joined: &mut Joined,
    source: &Source,
    include: &Include,
) -> Result<(), FrontFault>
    requires { source.now.depth ≤ MAX_INCLUDES }
    ensures { GoesThrough source.now.depth source.now.path source.now.file (an_include include.now ∷ []) (H.log host.old) (H.log host.new) joined.old joined.new result }
{
    let path = path_from(alloc, &source.path, include)?;
    if joined.paths.has(&path) {
        return Ok(());
    }
    if !may_be_read(&joined.paths, source.depth + 1) {
        pass_beyond(joined, path);
        return Ok(());
    }
    join_file(alloc, host, joined, source.depth + 1, path)
}

#[cycle(including)]
fn join_part<H: Host>(
    alloc: Global,
    host: &mut H,
    joined: &mut Joined,
    source: &Source,
    part: Part,
) -> Result<(), FrontFault>
    requires { source.now.depth ≤ MAX_INCLUDES }
    ensures { GoesThrough source.now.depth source.now.path source.now.file (part_of part ∷ []) (H.log host.old) (H.log host.new) joined.old joined.new result }
{
    match part {
        Part::Include(include) => join_include(alloc, host, joined, source, &include),
        Part::Function(function) => { Ok(add_part(joined, source.file, Part::Function(function))?) }
        Part::Stmt(stmt) => Ok(add_part(joined, source.file, Part::Stmt(stmt))?),
    }
}

/// The last part first: so each in its turn is taken off the end.
fn last_first(parts: Parts) -> Parts
    ensures { result ≡ reverse parts }
{
    let mut parts = parts.into_vec();
    parts.reverse();
    Listed::from_vec(parts)
}

/// Joins the parts of a file in their order.
#[cycle(including)]
fn join_parts<H: Host>(
    alloc: Global,
    host: &mut H,
    joined: &mut Joined,
    source: &Source,
    parts: Parts,
) -> Result<(), FrontFault>
    requires { source.now.depth ≤ MAX_INCLUDES }
    ensures { GoesThrough source.now.depth source.now.path source.now.file (map part_of parts) (H.log host.old) (H.log host.new) joined.old joined.new result }
{
    let mut left = last_first(parts);
    while let Some(part) = left.pop() {
        join_part(alloc, host, joined, source, part)?;
    }
    Ok(())
}

/// Joins the parts of a file that was read.
#[cycle(including)]
fn join_script<H: Host>(
    alloc: Global,
    host: &mut H,
    joined: &mut Joined,
    depth: u32,
    path: ByteText,
    script: Script,
) -> Result<(), FrontFault>
    requires depth { depth ≤ MAX_INCLUDES }
    requires unread { was_read path joined.old.paths ≡ false }
    requires few { length joined.old.paths < MAX_FILES }
    ensures { (root : List ℕ) (files : Files) (text : List ℕ) → joined.old.paths ≡ paths_of files → IsAhead root (files ++ (path, text) ∷ []) depth path (map part_of script.parts)
        → JoinsOn root (files ++ (path, text) ∷ []) depth path (length joined.old.paths) (map part_of script.parts) (H.log host.old) (H.log host.new) joined.old joined.new result }
{
    let source = begin_file(alloc, joined, depth, path)?;
    join_parts(alloc, host, joined, &source, script.parts)
}

/// Reads a file, and then joins its parts.
#[cycle(including)]
fn join_file<H: Host>(
    alloc: Global,
    host: &mut H,
    joined: &mut Joined,
    depth: u32,
    path: ByteText,
) -> Result<(), FrontFault>
    requires unread { was_read path joined.old.paths ≡ false }
    requires within { MayBeRead depth joined.old.paths }
    ensures { (above : ℕ) (from : List ℕ) (file : ℕ) (include : AnInclude) → depth ≡ above + 1 → path ≡ path_from_of from include
        → GoesThrough above from file (an_include include ∷ []) (H.log host.old) (H.log host.new) joined.old joined.new result }
{
    let script = read_script(alloc, host, &path)?;
    join_script(alloc, host, joined, depth, path, script)
}

/// Takes over the parts of a script that is the only file: they stand in the first file already, and are moved as they are.
fn join_alone(
    alloc: Global,
    joined: &mut Joined,
    path: &ByteText,
    script: Script,
) -> Result<At, NoMemory>
    requires { was_read path.now joined.old.paths ≡ false }
    ensures paths { IfOk result (λ _. joined.new.paths ≡ joined.old.paths ++ path.now ∷ []) }
    ensures parts { IfOk result (λ _. joined.new.parts ≡ script.parts) }
    ensures beyond { joined.new.beyond ≡ joined.old.beyond }
    ensures at { IfOk result (λ at. at ≡ script.at) }
{
    joined.paths.push(alloc, path)?;
    let Script {
        at,
        files: _,
        parts,
    } = script;
    joined.parts = parts;
    Ok(at)
}

/// Reads the script of a path and all files that it includes. The place is that of the script.
pub fn join_all<H: Host>(
    alloc: Global,
    host: &mut H,
    joined: &mut Joined,
    path: ByteText,
) -> Result<At, FrontFault>
    requires paths { joined.old.paths ≡ [] }
    requires parts { joined.old.parts ≡ [] }
    requires beyond { joined.old.beyond ≡ None }
    ensures { JoinsAll path (H.log host.old) (H.log host.new) joined.new result }
{
    let script = read_script(alloc, host, &path)?;
    if !holds_include(&script) {
        return Ok(join_alone(alloc, joined, &path, script)?);
    }
    let line = script.at.line;
    join_script(alloc, host, joined, 0, path, script)?;
    Ok(At { file: 0, line })
}
