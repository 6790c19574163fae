//! Code as a text.
use bds_code::{Function, Instr, Shape};
use bds_value::Ty;
use std::alloc::Global;
use std::test::Fail;

/// What is left out of a text that shows lists, boxes and what is shared, and what stands there.
const SHORTER: [(&str, &str); 5] = [
    ("Boxed { inner: ", ""),
    ("Shared { inner: ", ""),
    (" })", ")"),
    ("Listed { items: [", "["),
    ("] }", "]"),
];

fn shorter(alloc: Global, text: String) -> Result<String, Fail> {
    let mut text = text;
    for (long, short) in &SHORTER {
        text = text.as_str().replace(alloc, *long, short)?;
    }
    Ok(text)
}

/// Types with commas between.
pub fn types_shown(alloc: Global, types: &[Ty]) -> Result<String, Fail> {
    let mut shown = String::new(alloc);
    for (i, ty) in types.iter().enumerate() {
        if i > 0 {
            shown.push_str(",")?;
        }
        let ty = shorter(alloc, format!(in alloc; "{ty:?}")?)?;
        shown.push_str(ty.as_str())?;
    }
    Ok(shown)
}

fn show_label(
    alloc: Global,
    shown: &mut String,
    labels: &[(u32, Shape)],
    place: usize,
) -> Result<(), Fail> {
    for label in labels {
        if label.0 as usize == place {
            let types = types_shown(alloc, label.1.types(alloc)?.as_slice())?;
            let label = format!(in alloc; "{place}:{types} ")?;
            shown.push_str(label.as_str())?;
        }
    }
    Ok(())
}

fn instr_shown(alloc: Global, instr: &Instr) -> Result<String, Fail> {
    match instr {
        Instr::PushText(text) => {
            let text = str::from_utf8(text.as_slice()).unwrap_or("?");
            Ok(format!(in alloc; "'{text}' ")?)
        }
        _ => shorter(alloc, format!(in alloc; "{instr:?} ")?),
    }
}

/// The instructions of a function. Before a place that has a label stand its number and the types of the operands there.
pub fn shown(alloc: Global, function: &Function) -> Result<String, Fail> {
    let mut shown = String::new(alloc);
    for (place, instr) in function.code.as_slice().iter().enumerate() {
        show_label(alloc, &mut shown, function.labels.as_slice(), place)?;
        let instr = instr_shown(alloc, instr)?;
        shown.push_str(instr.as_str())?;
    }
    show_label(
        alloc,
        &mut shown,
        function.labels.as_slice(),
        function.code.len(),
    )?;
    Ok(shown)
}
