// The rows of the reservation list.
ghost use Rattle.std.specs.Prelude.{◌≡◌, ◌*◌, List};
ghost use Rattle.std.proofs.lemmas.List.Edits.{sets};
ghost use Rattle.format.specs.Answer.{ok};
ghost use Rattle.format.specs.Format.{reservation_width};
ghost use Rattle.format.specs.Tree.{Reservation};
ghost use Rattle.format.specs.Rows.{reservation_numbers};
ghost use Rattle.survey.specs.Reserve.{listed};
ghost use Rattle.loader.specs.Store.{StoreReady};

use crate::table::Table;
use format::RESERVATION_WIDTH;
use reader::number_at;
use survey::{ENTRY, LENGTH_AT};

// The rows of the reservations from pos on, which are known to be there.
pub(crate) fn store(b: &[u8], pos: usize, table: &mut Table<u64, RESERVATION_WIDTH>)
    requires { StoreReady b.now pos table.old.row table.old.numbers.now }
    ensures stored { (rs : List Reservation) → listed b.now pos ≡ ok rs
        → table.new.numbers.now ≡ sets table.old.numbers.now (reservation_width * table.old.row) (reservation_numbers rs) }
    ensures lent { table.new.numbers.ghost_name ≡ table.old.numbers.ghost_name }
{
    let mut p = pos;
    loop {
        let offset: u64 = number_at(b, p);
        let size: u64 = number_at(b, p + LENGTH_AT);
        table.push([offset, size]);
        if size == 0 {
            return;
        }
        p += ENTRY;
    }
}
