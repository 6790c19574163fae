//! A case, and its run.
use crate::item::LineFault;
use crate::line::Line;
use crate::telling::{put_count, put_name, put_outcome, put_pair};
use bds_app::bds;
use bds_host::{Ask, Host, Replies, Reply, Scripted, Trace};
use bds_value::{ByteText, Listed, NoMemory, Texts, copy_text, put};
use std::alloc::Global;

/// A call, and what the outside replies.
#[derive(Drop)]
pub struct Case {
    name: ByteText,
    words: Vec<String>,
    replies: Replies,
    /// What the case before has saved.
    saved: Texts,
}

/// What the run of a case prints, and what it has saved.
#[derive(Drop)]
pub struct Told {
    pub text: Vec<u8>,
    pub saved: Texts,
}

/// A text so many times.
fn repeated(alloc: Global, text: &ByteText, times: u32) -> Result<Vec<u8>, NoMemory> {
    let mut all = Vec::new(alloc);
    for _ in 0..times {
        put(&mut all, text.as_slice())?;
    }
    Ok(all)
}

/// The numbers 0, 1 and so on, so many, each between two texts.
fn numbered(
    alloc: Global,
    front: &ByteText,
    back: &ByteText,
    times: u32,
) -> Result<Vec<u8>, NoMemory> {
    let mut all = Vec::new(alloc);
    for number in 0..times {
        put(&mut all, front.as_slice())?;
        put_count(&mut all, u64::from(number))?;
        put(&mut all, back.as_slice())?;
    }
    Ok(all)
}

/// Adds so many replies `Done`.
fn add_done(replies: &mut Replies, times: u32) -> Result<(), NoMemory> {
    for _ in 0..times {
        replies.push(Reply::Done)?;
    }
    Ok(())
}

/// Adds to the bytes of the last reply.
fn add_bytes(replies: &mut Replies, more: &[u8]) -> Result<(), LineFault> {
    match replies.pop() {
        Some(Reply::Bytes(bytes)) => {
            let mut bytes = bytes;
            bytes.append(more)?;
            Ok(replies.push(Reply::Bytes(bytes))?)
        }
        _ => Err(LineFault::Form),
    }
}

/// A copy of a text, from 1, if there is one of this number.
fn numbered_copy(alloc: Global, texts: &Texts, number: u32) -> Result<ByteText, LineFault> {
    match texts.as_slice().get((number as usize).wrapping_sub(1)) {
        Some(text) => Ok(copy_text(alloc, text)?),
        None => Err(LineFault::Form),
    }
}

/// The images that were handed over to be saved.
fn images(alloc: Global, trace: &Trace) -> Result<Texts, NoMemory> {
    let mut images = Listed::new(alloc);
    for (ask, _) in trace.as_slice() {
        if let Ask::Save { image, .. } = ask {
            images.push(copy_text(alloc, image)?)?;
        }
    }
    Ok(images)
}

impl Case {
    /// A case without words and replies, behind one that has saved these images.
    pub fn new(alloc: Global, name: ByteText, saved: Texts) -> Case {
        Case {
            name,
            words: Vec::new(alloc),
            replies: Listed::new(alloc),
            saved,
        }
    }

    /// Adds what a line says that stands in the case.
    pub fn add(&mut self, alloc: Global, line: Line) -> Result<(), LineFault> {
        match line {
            Line::Nothing => {}
            Line::Case(_) => return Err(LineFault::Form),
            Line::Words(words) => self.words = words,
            Line::Reply(reply) => self.replies.push(reply)?,
            Line::Saved(number) => {
                let image = numbered_copy(alloc, &self.saved, number)?;
                self.replies.push(Reply::Bytes(image))?;
            }
            Line::Done(times) => add_done(&mut self.replies, times)?,
            Line::More(text, times) => {
                let more = repeated(alloc, &text, times)?;
                add_bytes(&mut self.replies, more.as_slice())?;
            }
            Line::Numbered(front, back, times) => {
                let more = numbered(alloc, &front, &back, times)?;
                add_bytes(&mut self.replies, more.as_slice())?;
            }
        }
        Ok(())
    }

    /// Runs the case, and tells all that was asked and replied, and the answer.
    pub fn told(self, alloc: Global) -> Result<Told, NoMemory> {
        let Case {
            name,
            words,
            replies,
            ..
        } = self;
        let mut text = Vec::new(alloc);
        put_name(&mut text, &name)?;
        let (outcome, host) = bds(alloc, words.as_slice(), Scripted::new(alloc, replies));
        for (ask, reply) in host.trace().as_slice() {
            put_pair(&mut text, ask, reply)?;
        }
        put_outcome(&mut text, outcome)?;
        let saved = images(alloc, host.trace())?;
        Ok(Told { text, saved })
    }
}
