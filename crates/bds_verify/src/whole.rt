//! The judge of what a unit has beside its code: types, texts, counts, labels.
ghost use Rattle.std.specs.Prelude.{◌≡◌, ◌≤◌, ◌&&◌, ◌||◌, ◌-◌, length, nat_lt, nat_le, nat_eq};
ghost use Rattle.std.specs.List.{list_all};
ghost use Rattle.std.specs.Option.{option_copied};
ghost use Rattle.bds_value.specs.Reading.{follows};
ghost use Rattle.bds_value.specs.declared.TheConstants.{MAX_COUNT};
ghost use Rattle.bds_value.specs.Types.{is_void};
ghost use Rattle.bds_verify.specs.Whole.{is_value_ty, are_value_tys, is_item_ty, is_text, is_whole_instr, rises, is_label, are_labels, is_code, are_lines, is_heading, is_whole, begins, is_whole_unit};

use bds_code::{Code, Function, Instr, Labels, Lines, Shape, Unit};
use bds_value::{
    At, ByteText, MAX_CODE, MAX_COUNT, MAX_NESTING, MAX_TEXT, Texts, Ty, Types, fits_within,
};

fn is_value_ty(ty: &Ty) -> bool
    ensures { result ≡ is_value_ty ty.now }
{
    fits_within(ty, MAX_NESTING)
}

fn are_value_tys(types: &Types) -> bool
    ensures { result ≡ are_value_tys types.now }
{
    types.len() as u64 <= MAX_COUNT && each_is_value_ty(types.as_slice())
}

fn each_is_value_ty(types: &[Ty]) -> bool
    ensures { result ≡ list_all is_value_ty types.now }
{
    for ty in types {
        if !is_value_ty(ty) {
            return false;
        }
    }
    true
}

fn is_text(text: &ByteText) -> bool
    ensures { result ≡ is_text text.now }
{
    text.len() as u64 <= MAX_TEXT
}

fn each_is_text(texts: &[ByteText]) -> bool
    ensures { result ≡ list_all is_text texts.now }
{
    for text in texts {
        if !is_text(text) {
            return false;
        }
    }
    true
}

fn is_whole_instr(instr: &Instr) -> bool
    ensures { result ≡ is_whole_instr instr.now }
{
    match instr {
        Instr::PushText(text) => is_text(text),
        Instr::PushDefault(ty) => is_value_ty(ty),
        Instr::MakeList(ty, _) | Instr::MakeMap(ty, _) => fits_within(ty, MAX_NESTING - 1),
        Instr::Update(_, _, kinds, _) => kinds.len() as u64 <= MAX_COUNT,
        _ => true,
    }
}

fn each_is_whole(code: &[Instr]) -> bool
    ensures { result ≡ list_all is_whole_instr code.now }
{
    for instr in code {
        if !is_whole_instr(instr) {
            return false;
        }
    }
    true
}

fn is_code(code: &Code) -> bool
    ensures { result ≡ is_code code.now }
{
    code.len() > 0 && code.len() as u64 <= MAX_CODE && each_is_whole(code.as_slice())
}

/// Whether the places of labels rise.
fn rises(labels: &[(u32, Shape)]) -> bool
    ensures { result ≡ rises labels.now }
{
    let mut last = None;
    for label in labels {
        if !follows(last, label.0) {
            return false;
        }
        last = Some(label.0);
    }
    true
}

fn follows(last: Option<u32>, place: u32) -> bool
    ensures { result ≡ follows nat_lt last place }
{
    match last {
        Some(last) => last < place,
        None => true,
    }
}

fn is_shape(shape: &Shape) -> bool
    ensures { result ≡ are_value_tys shape.now }
{
    shape.len() as u64 <= MAX_COUNT && each_is_operand(shape)
}

#[tactic(auto, using(crate::proofs::WholeLaws::all_end))]
fn each_is_operand(shape: &Shape) -> bool
    ensures { result ≡ list_all is_value_ty shape.now }
{
    for place in 0..shape.len() {
        if !is_value_ty(shape.at(place)) {
            return false;
        }
    }
    true
}

fn is_label(label: &(u32, Shape), size: usize) -> bool
    ensures { result ≡ is_label size label.now }
{
    (label.0 as usize) < size && is_shape(&label.1)
}

fn each_is_label(labels: &[(u32, Shape)], size: usize) -> bool
    ensures { result ≡ list_all (is_label size) labels.now }
{
    for label in labels {
        if !is_label(label, size) {
            return false;
        }
    }
    true
}

fn are_labels(labels: &Labels, size: usize) -> bool
    ensures { result ≡ are_labels size labels.now }
{
    labels.len() as u64 <= MAX_COUNT
        && rises(labels.as_slice())
        && each_is_label(labels.as_slice(), size)
}

fn each_has_file(lines: &[At], files: usize) -> bool
    ensures { result ≡ list_all (λ a. nat_lt a.file files) lines.now }
{
    lines.iter().all(|at| (at.file as usize) < files)
}

fn are_lines(lines: &Lines, files: usize, size: usize) -> bool
    ensures { result ≡ are_lines files size lines.now }
{
    lines.len() == size && each_has_file(lines.as_slice(), files)
}

fn is_result(ty: &Ty) -> bool
    ensures { result ≡ is_void ty.now || is_value_ty ty.now }
{
    matches!(ty, Ty::Void) || is_value_ty(ty)
}

fn is_heading(function: &Function) -> bool
    ensures { result ≡ is_heading function.now }
{
    is_text(&function.name)
        && are_value_tys(&function.params)
        && are_value_tys(&function.locals)
        && is_result(&function.ret)
}

/// Whether a function has its types, texts, code, labels and lines.
pub(crate) fn is_whole(unit: &Unit, function: &Function) -> bool
    ensures { result ≡ is_whole unit.now function.now }
{
    let size = function.code.len();
    is_heading(function)
        && is_code(&function.code)
        && are_labels(&function.labels, size)
        && are_lines(&function.lines, unit.files.len(), size)
}

/// Whether there is a first function, which takes and gives nothing.
fn begins(first: Option<&Function>) -> bool
    ensures { result ≡ begins (option_copied first.entry) }
{
    match first {
        Some(function) => function.params.len() == 0 && matches!(function.ret, Ty::Void),
        None => false,
    }
}

fn are_files(files: &Texts) -> bool
    ensures { result ≡ nat_le (length files.now) MAX_COUNT && list_all is_text files.now }
{
    files.len() as u64 <= MAX_COUNT && each_is_text(files.as_slice())
}

/// Whether a unit has its files and globals, and a first function.
pub(crate) fn is_whole_unit(unit: &Unit) -> bool
    ensures { result ≡ is_whole_unit unit.now }
{
    are_files(&unit.files)
        && are_value_tys(&unit.globals)
        && unit.functions.len() as u64 <= MAX_COUNT
        && begins(unit.functions.as_slice().first())
}
