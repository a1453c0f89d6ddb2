// The notice: a header of its own, and the kept fields' bytes in the order of their names.
ghost use Rattle.std.specs.Prelude.{◌≡◌, ◌+◌, ◌≤◌, ◌<◌, length};
ghost use Rattle.std.proofs.lemmas.List.Edits.{sets};
ghost use Rattle.notice.specs.Render.{fields_bytes, render};
ghost use Rattle.mend.specs.Mend.{onto};
ghost use Rattle.mend.specs.Order.{fields_in, InOrder};

use crate::copying::copy;

// The fields at the first n places, from offset 8 on. Fields that lie side by side in the bytes as well are stored at once: those from `from` to `end` are still to store.
fn put_fields(notice: &mut [u8], bytes: &[u8], order: &[u16; 65], n: usize)
    requires { InOrder bytes.now order.now n × (8 + length (fields_bytes (fields_in bytes.now order.now n)) ≤ length notice.old) }
    ensures { notice.new ≡ sets notice.old 8 (fields_bytes (fields_in bytes.now order.now n)) }
{
    let mut to = 8;
    let mut from = 0;
    let mut end = 0;
    for start in &order[..n] {
        let at = *start as usize;
        if at != end {
            copy(notice, to, &bytes[from..end]);
            to += end - from;
            from = at;
        }
        end = notice::next_at(bytes, at);
    }
    copy(notice, to, &bytes[from..end]);
}

pub(crate) fn put_notice(notice: &mut [u8], bytes: &[u8], order: &[u16; 65], n: usize, size: usize)
    requires { InOrder bytes.now order.now n × (size ≡ length (render (fields_in bytes.now order.now n))) × (size ≤ length notice.old) × (size ≤ 16384) }
    ensures { notice.new ≡ onto (render (fields_in bytes.now order.now n)) notice.old }
{
    word::write_u32(notice, 0, (size - 4) as u32);
    word::write_u16(notice, 4, 1);
    word::write_u16(notice, 6, n as u16);
    put_fields(notice, bytes, order, n);
}
