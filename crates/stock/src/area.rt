// Rows of bytes within an area. Where a row does not lie within the area, nothing is copied.
ghost use Rattle.std.specs.Prelude.{◌≡◌, length, if◌then◌else◌};
ghost use Rattle.stock.specs.Areas.{lies_in, written, row_at};

// Writes the bytes into the area, from the byte `at` on.
pub fn write_at(area: &mut [u8], at: usize, bytes: &[u8])
    ensures { area.new ≡ (if lies_in at (length bytes.now) (length area.old) then written at bytes.now area.old else area.old) }
{
    let Some((_before, rest)) = area.split_at_mut_checked(at) else {
        return;
    };
    let Some((part, _after)) = rest.split_at_mut_checked(bytes.len()) else {
        return;
    };
    part.copy_from_slice(bytes);
}

// Copies the area's bytes from the byte `at` on into the row, as many as it has.
pub fn read_at(area: &[u8], at: usize, row: &mut [u8])
    ensures { row.new ≡ (if lies_in at (length row.old) (length area.now) then row_at (length row.old) at area.now else row.old) }
{
    let Some(bytes) = area.get(at..).and_then(|rest| rest.get(..row.len())) else {
        return;
    };
    row.copy_from_slice(bytes);
}
