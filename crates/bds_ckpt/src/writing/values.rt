//! Writing lists of values and of ids.
ghost use Rattle.std.specs.Prelude.{◌≡◌, ◌≤◌, ◌++◌, OnOk, length};
ghost use Rattle.std.specs.List.{flat_map, All};
ghost use Rattle.bds_value.specs.Spelling.{IsWithinLimits, list_field, value_field};
ghost use Rattle.bds_value.specs.declared.TheConstants.{MAX_COUNT};
ghost use Rattle.bds_state.specs.StateSpelling.{values_field, id_field};
ghost use Rattle.bds_ckpt.specs.Short.{AreShort};

use bds_value::{Id, NoMemory, Value, put_count, put_u8, put_u32, put_value};

/// Puts values behind their number. After a refusal `out` is open.
pub(crate) fn put_values(out: &mut Vec<u8>, values: &[Value]) -> Result<(), NoMemory>
    requires { AreShort values.now }
    ensures { OnOk result (out.new.items ≡ out.old.items ++ values_field values.now) }
{
    put_count(out, values.len())?;
    put_each_value(out, values)
}

fn put_each_value(out: &mut Vec<u8>, values: &[Value]) -> Result<(), NoMemory>
    requires { All IsWithinLimits values.now }
    ensures { OnOk result (out.new.items ≡ out.old.items ++ flat_map value_field values.now) }
{
    for value in values {
        put_value(out, value)?;
    }
    Ok(())
}

fn put_id(out: &mut Vec<u8>, id: Id) -> Result<(), NoMemory>
    ensures { OnOk result (out.new.items ≡ out.old.items ++ id_field id) }
{
    match id {
        Id::Task(n) => {
            put_u8(out, 0)?;
            put_u32(out, n)
        }
        Id::Thread(n) => {
            put_u8(out, 1)?;
            put_u32(out, n)
        }
    }
}

/// Puts ids behind their number. After a refusal `out` is open.
pub(crate) fn put_ids(out: &mut Vec<u8>, ids: &[Id]) -> Result<(), NoMemory>
    requires { length ids.now ≤ MAX_COUNT }
    ensures { OnOk result (out.new.items ≡ out.old.items ++ list_field id_field ids.now) }
{
    put_count(out, ids.len())?;
    put_each_id(out, ids)
}

fn put_each_id(out: &mut Vec<u8>, ids: &[Id]) -> Result<(), NoMemory>
    ensures { OnOk result (out.new.items ≡ out.old.items ++ flat_map id_field ids.now) }
{
    for i in 0..ids.len() {
        put_id(out, ids[i])?;
    }
    Ok(())
}
