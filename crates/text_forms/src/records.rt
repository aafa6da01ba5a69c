//! Records of CSV.
ghost use Rattle.std.specs.Prelude.{◌≡◌, ◌++◌, ◌∷◌, [], IfOk, OnOk, map};
ghost use Rattle.std.specs.Fmt.{decimal};
ghost use Rattle.text_forms.specs.Records.{record_text};

use byte_text::Text;
use csv::WriterBuilder;
use std::alloc::{AllocError, Global};
use std::marker::Model;

/// Appends a record of these fields, with its line feed.
///
/// Errors: an allocation fails. Then the text is unchanged.
#[tactic(auto, unfolding(crate::specs::Records::record_text))]
pub fn push_fields(text: &mut Text, alloc: Global, fields: &[&[u8]]) -> Result<(), AllocError>
    ensures { OnOk result
        (text.new ≡ text.old ++ record_text (map (λ field. field.now) fields.now)) }
{
    let mut writer = WriterBuilder::new().from_writer(Vec::new(alloc));
    // In memory only an allocation can fail.
    if writer.write_fields(fields).is_err() {
        return Err(AllocError);
    }
    match writer.into_inner() {
        Ok(bytes) => text.push(&bytes),
        Err(_) => Err(AllocError),
    }
}

// The bytes of each field.
fn parts_of<'a>(alloc: Global, fields: &'a Vec<Text>) -> Result<Vec<&'a [u8]>, AllocError>
    ensures { IfOk result (λ parts. map (λ part. part.now) parts.items ≡ fields.entry.now.items) }
{
    let mut parts = Vec::new(alloc);
    for field in fields {
        parts.push(field.bytes())?;
    }
    Ok(parts)
}

/// A record that is put together field by field.
#[derive(Debug, Drop)]
pub struct Record {
    alloc: Global,
    fields: Vec<Text>,
}

impl Model for Record {
    ghost use Rattle.std.specs.Prelude.{List, ℕ};

    ghost Value = { List (List ℕ) };

    ghost view = { λ r. r.fields.items };
}

impl Record {
    /// A record with no fields, which takes memory from this allocator. It takes none yet.
    pub fn new(alloc: Global) -> Self
        ensures { result ≡ [] }
    {
        Record {
            alloc,
            fields: Vec::new(alloc),
        }
    }

    /// Adds a field of these bytes.
    pub fn push(&mut self, field: &[u8]) -> Result<(), AllocError>
        ensures { OnOk result (self.new ≡ self.old ++ field.now ∷ []) }
    {
        self.fields.push(Text::from_bytes(self.alloc, field)?)?;
        Ok(())
    }

    /// Adds a number in decimal digits.
    pub fn push_number(&mut self, number: u64) -> Result<(), AllocError>
        ensures { OnOk result (self.new ≡ self.old ++ decimal number ∷ []) }
    {
        let mut digits = Text::new(self.alloc);
        digits.push_number(self.alloc, number)?;
        self.fields.push(digits)?;
        Ok(())
    }

    /// Appends the record to a text, with its line feed.
    pub fn write_to(&self, text: &mut Text) -> Result<(), AllocError>
        ensures { OnOk result (text.new ≡ text.old ++ record_text self.now) }
    {
        let parts = parts_of(self.alloc, &self.fields)?;
        push_fields(text, self.alloc, &parts)
    }
}
