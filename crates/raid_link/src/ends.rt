ghost use Rattle.std.specs.Prelude.{◌≡◌, ◌<◌, ◌≤◌, ◌+◌, ◌⊎◌, [], ◌∷◌, ◌++◌, IfOk, OnOk, OnErr, IfSome, IfNone, IsSome, IsTrue, ◌↔◌, length};
ghost use mathlib.Core.List.{IsPrefix};
ghost use Rattle.rtrb.specs.Ring.{sent, known_free, SameProducer};
ghost use Rattle.raid_link.specs.Link.{all_sent, waits, free, given, known, places_of, left, IsLink, IsSettled, SameSender, SameReceiver, Unchanged};

use raid_base::NoMemory;
use raid_message::Letter;
use rtrb::{Consumer, Producer, RingBuffer};
use std::alloc::Global;
use std::collections::VecDeque;

/// The end of a link at the server that sends: a ring of so many places, and the letters that wait for a place in it.
#[derive(Drop)]
pub struct Sender {
    producer: Producer<Letter>,
    waiting: VecDeque<Letter>,
}

/// The end of a link at the server that receives.
#[derive(Drop)]
pub struct Receiver {
    consumer: Consumer<Letter>,
}

/// An empty link with so many places.
pub fn link(alloc: Global, places: u32) -> Result<(Sender, Receiver), NoMemory>
    requires { (1 ≤ places) × (places ≤ 1024) }
    ensures link { IfOk result (λ r. IsLink r.0 r.1) }
    ensures places { IfOk result (λ r. places_of r.1 ≡ places) }
    ensures empty { IfOk result (λ r. (all_sent r.0 ≡ []) × (given r.1 ≡ []) × (known r.1 ≡ [])) }
{
    let (producer, consumer) = RingBuffer::new(alloc, places as usize)?;
    let waiting = VecDeque::new(alloc);
    Ok((Sender { producer, waiting }, Receiver { consumer }))
}

impl Sender {
    /// Sends a letter: into the ring, or, where no free place is known or letters wait already, at the end of those
    /// that wait. So a full ring refuses no letter, and none overtakes another. After want of memory the letter
    /// isn't sent, and the sender is as it was.
    pub fn send(&mut self, letter: Letter) -> Result<(), NoMemory>
        ensures same { SameSender self.old self.new }
        ensures ok { OnOk result (all_sent self.new ≡ all_sent self.old ++ letter ∷ []) }
        ensures enters { OnOk result ((waits self.old ≡ []) × (0 < free self.old) → waits self.new ≡ []) }
        ensures queues { OnOk result ((0 < length (waits self.old)) ⊎ (free self.old ≡ 0) → waits self.new ≡ waits self.old ++ letter ∷ []) }
        ensures err { OnErr result (all_sent self.new ≡ all_sent self.old) }
        ensures kept { OnErr result (Unchanged self.old self.new) }
    {
        if self.waiting.is_empty() && self.producer.cached_slots() > 0 {
            self.producer.push_reserved(letter);
            return Ok(());
        }
        self.waiting.push_back(letter)?;
        Ok(())
    }
}

impl Sender {
    /// Moves waiting letters into the ring, as far as the receiver has made room by now. What was sent stays as it was, and it takes no
    /// memory.
    pub fn flush(&mut self)
        ensures same { SameSender self.old self.new }
        ensures sent { all_sent self.new ≡ all_sent self.old }
    {
        if self.waiting.is_empty() {
            return;
        }
        self.producer.slots();
        refill(&mut self.producer, &mut self.waiting);
    }
}

impl Receiver {
    /// The next letter sent. None comes only where each letter that was known at the last settling has been taken.
    /// A letter that was sent since may be given or not, as its sender's thread is fast or slow. It takes no memory.
    pub fn take(&mut self) -> Option<Letter>
        ensures same { SameReceiver self.old self.new }
        ensures some { IfSome result (λ x. (given self.new ≡ given self.old ++ x ∷ []) × IsPrefix (known self.old) (x ∷ known self.new)) }
        ensures none { IfNone result ((given self.new ≡ given self.old) × (known self.old ≡ []) × (known self.new ≡ [])) }
        ensures succeeds { 0 < length (known self.old) → IsSome result }
    {
        self.consumer.pop().ok()
    }
}

/// Moves waiting letters into the ring, in order, until no free place is known or none waits.
fn refill(producer: &mut Producer<Letter>, waiting: &mut VecDeque<Letter>)
    ensures same { SameProducer producer.old producer.new }
    ensures sent { sent producer.new ++ waiting.new.items ≡ sent producer.old ++ waiting.old.items }
    ensures counts { known_free producer.new + length (sent producer.new) ≡ known_free producer.old + length (sent producer.old) }
    ensures done { (known_free producer.new ≡ 0) ⊎ (waiting.new.items ≡ []) }
{
    while producer.cached_slots() > 0 {
        let Some(letter) = waiting.pop_front() else {
            return;
        };
        producer.push_reserved(letter);
    }
}

/// Brings the two ends of one link together: moves waiting letters into the ring while it has room, and makes the
/// letters in it known to the receiver. True exactly where a letter is left. What was sent and what was taken stay
/// as they were, and it takes no memory.
pub fn settle(sender: &mut Sender, receiver: &mut Receiver) -> bool
    requires { IsLink sender.old receiver.old }
    ensures link { IsLink sender.new receiver.new }
    ensures same { SameSender sender.old sender.new × SameReceiver receiver.old receiver.new }
    ensures sent { all_sent sender.new ≡ all_sent sender.old }
    ensures given { given receiver.new ≡ given receiver.old }
    ensures settled { IsSettled sender.new receiver.new }
    ensures value { IsTrue result ↔ (0 < length (left sender.new receiver.new)) }
{
    sender.producer.slots_beside(&mut receiver.consumer);
    refill(&mut sender.producer, &mut sender.waiting);
    let count = receiver.consumer.slots_beside(&mut sender.producer);
    count > 0
}
