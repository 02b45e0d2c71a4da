// The line of `stat`, which is the longest.
ghost use Rattle.std.specs.Prelude.{◌≡◌, ◌≤◌, ◌<◌, ◌+◌, ◌++◌, [], length};
ghost use Rattle.arrayvec.specs.ArrayVec.{array_vec_len};
ghost use Rattle.space_model.specs.declared.reply.Reply.TheVariants.{StatLine};
ghost use Rattle.space_model.specs.Spelling.{text_of_pieces, IsSpelled};
ghost use Rattle.space_model.specs.Texts.{count_pieces, reply_pieces};

use crate::line_buffer::{put, put_decimal};
use arrayvec::ArrayVec;
use space_model::Stat;

/// It has room for twelve numbers of 20 digits, and takes no memory.
pub type StatBuffer = ArrayVec<u8, 512>;

// Puts the count at the end, behind its name.
fn put_count(line: &mut StatBuffer, name: &[u8], number: u64)
    requires { array_vec_len line.old + length name.now + 22 ≤ 512 }
    ensures items { line.new.items ≡ line.old.items ++ text_of_pieces (count_pieces name.now number) }
    ensures len { array_vec_len line.new ≤ array_vec_len line.old + length name.now + 22 }
    ensures spelled { IsSpelled (count_pieces name.now number) }
{
    put(line, b" ");
    put(line, name);
    put(line, b"=");
    put_decimal(line, number);
}

/// Puts the line of the counts into an empty one.
pub fn put_stat(line: &mut StatBuffer, stat: &Stat)
    requires { line.old.items ≡ [] }
    ensures items { line.new.items ≡ text_of_pieces (reply_pieces (StatLine stat.now)) }
    ensures len { array_vec_len line.new < 512 }
    ensures spelled { IsSpelled (reply_pieces (StatLine stat.now)) }
{
    put(line, b"stat");
    put_count(line, b"count", stat.count);
    put_count(line, b"minor_gc_count", stat.minor_gc_count);
    put_count(line, b"major_gc_count", stat.major_gc_count);
    put_count(line, b"heap_allocated_pages", stat.heap_allocated_pages);
    put_count(line, b"heap_live_slots", stat.heap_live_slots);
    put_count(line, b"heap_free_slots", stat.heap_free_slots);
    put_count(
        line,
        b"total_allocated_objects",
        stat.total_allocated_objects,
    );
    put_count(line, b"total_freed_objects", stat.total_freed_objects);
    put_count(line, b"old_objects", stat.old_objects);
    put_count(
        line,
        b"remembered_wb_unprotected_objects",
        stat.remembered_wb_unprotected_objects,
    );
    put_count(line, b"compact_count", stat.compact_count);
    put_count(line, b"total_moved_objects", stat.total_moved_objects);
}
