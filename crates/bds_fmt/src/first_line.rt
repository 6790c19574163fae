//! The first line of a script, where it is kept.
ghost use Rattle.std.specs.Prelude.{◌≡◌, ◌++◌, ◌-◌, ◌≤◌, OnOk, length, not};
ghost use Rattle.std.specs.List.{prefix_len, suffix_len};
ghost use Rattle.bds_tree.specs.lexing.Bytes.{is_line_end};
ghost use Rattle.bds_fmt.specs.Canonical.{begins_with_hash_bang, is_cr, kept_line, line_before, without_trailing_crs};
ghost use Rattle.bds_fmt.specs.FirstLine.{first_line_kept};

use bds_value::{ByteText, NoMemory};

/// Whether the text begins with `#!`.
fn begins_a_script(text: &[u8]) -> bool
    ensures { result ≡ begins_with_hash_bang text.now }
{
    match text {
        [] => false,
        [_only] => false,
        [first, second, ..] => *first == b'#' && *second == b'!',
    }
}

/// How many bytes stand before the first line end, or before the end.
fn line_len(bytes: &[u8]) -> usize
    ensures value { result ≡ prefix_len (λ b. not (is_line_end b)) bytes.now }
    ensures within { result ≤ length bytes.now }
{
    let mut n = 0;
    while n < bytes.len() && bytes[n] != b'\n' {
        n += 1;
    }
    n
}

/// How many bytes stand before the CRs at the end.
fn len_without_crs(bytes: &[u8]) -> usize
    ensures value { result ≡ length bytes.now - suffix_len is_cr bytes.now }
    ensures within { result ≤ length bytes.now }
{
    let mut n = bytes.len();
    while n > 0 && bytes[n - 1] == b'\r' {
        n -= 1;
    }
    n
}

fn without_crs(line: &[u8]) -> &[u8]
    ensures { result.now ≡ without_trailing_crs line.now }
{
    line.split_at(len_without_crs(line)).0
}

/// Puts a line, with its line end where something stands behind it.
fn put_line(out: &mut ByteText, line: &[u8], behind: &[u8]) -> Result<(), NoMemory>
    ensures { OnOk result (out.new ≡ out.old ++ line_before line.now behind.now) }
{
    match behind {
        [] => out.append(line),
        [_first, ..] => {
            out.append(without_crs(line))?;
            out.push(b'\n')
        }
    }
}

fn put_first_line(out: &mut ByteText, text: &[u8]) -> Result<(), NoMemory>
    ensures { OnOk result (out.new ≡ out.old ++ first_line_kept text.now) }
{
    let (line, behind) = text.split_at(line_len(text));
    put_line(out, line, behind)
}

/// Puts the first line, where it is kept.
pub fn put_kept_line(out: &mut ByteText, text: &[u8]) -> Result<(), NoMemory>
    ensures { OnOk result (out.new ≡ out.old ++ kept_line text.now) }
{
    if begins_a_script(text) {
        put_first_line(out, text)
    } else {
        Ok(())
    }
}
