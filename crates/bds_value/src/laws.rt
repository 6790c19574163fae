//! Laws on fields, each the clause of a function.
ghost use Rattle.std.specs.Prelude.{◌≡◌, ◌<◌, ◌≤◌, ◌^◌, ℕ, ⊤, length, FitsSigned};
ghost use Rattle.std.specs.Int.{w64};
ghost use Rattle.bds_value.specs.declared.TheConstants.{MAX_TEXT};
ghost use Rattle.bds_value.specs.Fields.{AreBytes, AreFieldTexts, AreFieldTypes, IsField, IsFieldTy, IsFieldValue};
ghost use Rattle.bds_value.specs.Reading.{byte_at, bool_at, u16_at, u32_at, u64_at, i64_at, count_at, text_at, ty_at, value_at, texts_at, types_at};
ghost use Rattle.bds_value.specs.Spelling.{u8_field, bool_field, u16_field, u32_field, u64_field, i64_field, text_field, ty_field, value_field, texts_field, types_field};

/// What is spelled is read back, and what is read is spelled so: a law, which does nothing.
pub fn fields_are_read_back()
    ensures byte { IsField byte_at u8_field (λ n. n < 2 ^ 8) }
    ensures truth { IsField bool_at bool_field (λ b. ⊤) }
    ensures number_of_16 { IsField u16_at u16_field (λ n. n < 2 ^ 16) }
    ensures number_of_32 { IsField u32_at u32_field (λ n. n < 2 ^ 32) }
    ensures number_of_64 { IsField u64_at u64_field (λ n. n < 2 ^ 64) }
    ensures signed { IsField i64_at i64_field (λ n. FitsSigned w64 n) }
    ensures count { (limit : ℕ) → limit < 2 ^ 32 → IsField (count_at limit) u32_field (λ n. n ≤ limit) }
    ensures text { IsField text_at text_field (λ t. length t ≤ MAX_TEXT) }
    ensures ty { IsField ty_at ty_field IsFieldTy }
    ensures value { IsField value_at value_field IsFieldValue }
    ensures texts { IsField texts_at texts_field AreFieldTexts }
    ensures types { IsField types_at types_field AreFieldTypes }
{}

/// Bytes are below 256: a law, which does nothing.
pub fn are_bytes(bytes: &[u8])
    ensures { AreBytes bytes.now }
{}
