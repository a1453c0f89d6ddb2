// The changes of a store, after all is judged.
ghost use Rattle.std.specs.Prelude.{◌≡◌, ◌∷◌, [], ◌++◌};
ghost use Rattle.store.specs.Layout.{written, records_of};
ghost use Rattle.store.specs.Calls.{rec, without, Appendable, Removable};

// The record of a table after the others.
pub fn append(store: &mut [u8], number: usize, table: &[u8])
    requires { Appendable store.old number table.now }
    ensures { store.new ≡ written (records_of store.old ++ (rec number table.now ∷ [])) store.old }
{
    let end = 4 + word::read_u32(store, 0) as usize;
    let count = word::read_u16(store, 6);
    word::write_u16(store, end, (2 + table.len()) as u16);
    word::write_u16(store, end + 2, (256 + number) as u16);
    common::copy_to(store, end + 4, table);
    word::write_u32(store, 0, (end + table.len()) as u32);
    word::write_u16(store, 6, count + 1);
}

// The record of a number is taken out: the later ones move down, so that "Room freed is used again".
pub fn cut_out(store: &mut [u8], number: usize, at: usize)
    requires { Removable store.old number at }
    ensures { store.new ≡ written (without number (records_of store.old)) store.old }
{
    let end = 4 + word::read_u32(store, 0) as usize;
    let count = word::read_u16(store, 6);
    let size = 2 + word::read_u16(store, at) as usize;
    common::move_down(store, at, at + size, end);
    word::write_u32(store, 0, (end - size - 4) as u32);
    word::write_u16(store, 6, count - 1);
}
