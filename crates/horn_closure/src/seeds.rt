//! Where a closure begins: the places of what is held.
ghost use Rattle.std.specs.Prelude.{◌≡◌, ◌<◌, ◌≤◌, ◌+◌, ◌*◌, ◌/◌, ◌%◌, ◌==◌, ℕ, [], length, if◌then◌else◌};
ghost use Rattle.std.specs.Int.{bit_at};
ghost use Rattle.horn_closure.specs.Run.{IsQueueOf, count};

use crate::queue::Queue;
use dl_base::BasicSet;

/// Queues the place of each basic concept that is held.
pub(crate) fn queue_all(held: &BasicSet, queue: &mut Queue)
    requires { queue.old ≡ [] }
    ensures { IsQueueOf held.now queue.new }
{
    let words = held.words();
    for w in 0..words.len() {
        queue_word(words[w], w, queue);
    }
}

/// Queues the place of each bit that is set in word w.
fn queue_word(word: u64, w: usize, queue: &mut Queue)
    requires word { w < 16 }
    requires room { length queue.old ≤ 64 * w }
    ensures each { (p : ℕ) → count p queue.new ≡ count p queue.old + (if p / 64 == w then bit_at word (p % 64) else 0) }
    ensures room { length queue.new ≤ 64 * w + 64 }
{
    let mut rest = word;
    let mut at = 0;
    while rest > 0 {
        let skipped = rest.trailing_zeros();
        at += skipped as usize;
        queue.push(64 * w + at);
        rest = rest >> skipped >> 1;
        at += 1;
    }
}
