//! Values as C sees them.

ghost use Rattle.std.specs.Prelude.{◌≡◌, length, map, min, take};
ghost use Rattle.calvin_c.specs.Values.{fitting, value_in};

use values::Value;

/// The bytes that a text has at most.
const TEXT_BYTES: usize = 64;

/// A value: a number where `kind` is 0, and else a text, which is the first `length` bytes of `text`.
#[repr(C)]
#[derive(Clone, Copy)]
pub struct ValueCell {
    pub number: i64,
    pub kind: u32,
    pub length: u32,
    pub text: [u8; 64],
}

/// Writes a value, of a text at most 64 bytes.
#[tactic(auto, using(crate::proofs::Copying::copied_text))]
fn write_value(cell: &mut ValueCell, value: &Value)
    ensures { value_in cell.new ≡ fitting value.now }
{
    match value {
        Value::Int(number) => {
            cell.kind = 0;
            cell.number = *number;
            cell.length = 0;
        }
        Value::Text(text) => {
            let bytes = text.as_str().as_bytes();
            let count = bytes.len().min(TEXT_BYTES);
            cell.kind = 1;
            cell.number = 0;
            cell.length = count as u32;
            cell.text[..count].copy_from_slice(&bytes[..count]);
        }
    }
}

/// Writes values to the front of `cells`, as many as there are or as fit, and gives how many.
#[tactic(auto, using(crate::proofs::Copying::one_more))]
pub(crate) fn write_values(cells: &mut [ValueCell], values: &[Value]) -> usize
    ensures count { result ≡ min (length values.now) (length cells.old) }
    ensures room { length cells.new ≡ length cells.old }
    ensures written { map value_in (take result cells.new) ≡ map fitting (take result values.now) }
{
    let count = values.len().min(cells.len());
    for i in 0..count {
        write_value(&mut cells[i], &values[i]);
    }
    count
}
