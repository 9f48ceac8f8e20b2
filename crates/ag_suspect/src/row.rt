//! The bytes of rows, both ways. Neither way takes memory.
ghost use Rattle.std.specs.Prelude.{◌≡◌, ◌+◌, ◌++◌, ◌*◌, ◌<◌, ◌≤◌, length, take, drop};
ghost use Rattle.ag_suspect.specs.Rows.{row_spelling, row_in, rows_sector};

use ag_model::answer::SuspectRow;
use ag_outside::disk::Sector;
use byteorder::{BigEndian, ByteOrder};

/// How many bytes a row takes.
const ROW: usize = 32;

/// The bytes of a row.
fn spell(row: &SuspectRow) -> [u8; 32]
    ensures { result ≡ row_spelling row.now }
{
    let mut bytes = [0; 32];
    BigEndian::write_u16(&mut bytes[..], row.page);
    bytes[2] = row.kind;
    bytes[3] = u8::from(row.repaired);
    BigEndian::write_u32(&mut bytes[4..], row.count);
    bytes
}

/// Writes a row at a place of a sector. Places count from 0.
fn put(bytes: &mut Sector, place: usize, row: &SuspectRow)
    requires { place < 16 }
    ensures { bytes.new ≡ take (32 * place) bytes.old ++ (row_spelling row.now ++ drop (32 * place + 32) bytes.old) }
{
    bytes[ROW * place..ROW * place + ROW].copy_from_slice(&spell(row));
}

/// The sector of at most 16 rows.
pub(crate) fn encode(rows: &[SuspectRow]) -> Sector
    requires { length rows.now ≤ 16 }
    ensures { result ≡ rows_sector rows.now }
{
    let mut bytes = [0; 512];
    for (i, row) in rows.iter().enumerate() {
        put(&mut bytes, i, row);
    }
    bytes
}

/// What stands at a place of a sector. Places count from 0.
pub(crate) fn row_at(sector: &Sector, place: usize) -> SuspectRow
    requires { place < 16 }
    ensures { result ≡ row_in (take 32 (drop (32 * place) sector.now)) }
{
    read(&sector[ROW * place..ROW * place + ROW])
}

/// What stands in 32 bytes.
fn read(bytes: &[u8]) -> SuspectRow
    requires { length bytes.now ≡ 32 }
    ensures { result ≡ row_in bytes.now }
{
    SuspectRow {
        page: BigEndian::read_u16(bytes),
        kind: bytes[2],
        repaired: bytes[3] == 1,
        count: BigEndian::read_u32(&bytes[4..]),
    }
}
