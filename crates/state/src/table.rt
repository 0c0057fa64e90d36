ghost use Rattle.std.specs.Prelude.{◌≡◌, ◌<◌, length};
ghost use Rattle.state.specs.Memory.{TableShaped, taken, put_at, posted};

use crate::fault::ServiceFault;
use crate::service::Table;
use kinds::RecordKind;
use relay::Message;

impl Table {
    // Takes the message at the place; the last moves there.
    pub fn take<V: RecordKind>(&mut self, messages: &mut [Message<V>], place: u16) -> Message<V>
        requires within { place < self.old.count }
        requires shape { TableShaped self.old (length messages.old) }
        ensures { (self.new, messages.new, result) ≡ taken self.old messages.old place }
    {
        self.count -= 1;
        let m = messages[place as usize];
        messages[place as usize] = messages[self.count as usize];
        m
    }

    // A new message goes to the end.
    pub fn put<V: RecordKind>(&mut self, messages: &mut [Message<V>], m: Message<V>)
        requires room { self.old.count < length messages.old }
        requires bound { self.old.count < 65535 }
        ensures { (self.new, messages.new) ≡ put_at self.old messages.old m }
    {
        messages[self.count as usize] = m;
        self.count += 1;
    }

    // A new message goes to the end, unless the table is full.
    pub fn post<V: RecordKind>(
        &mut self,
        messages: &mut [Message<V>],
        m: Message<V>,
    ) -> Result<(), ServiceFault>
        requires { TableShaped self.old (length messages.old) }
        ensures { (self.new, messages.new, result) ≡ posted self.old messages.old m }
    {
        if self.count >= self.size {
            return Err(ServiceFault::TableFull);
        }
        self.put(messages, m);
        Ok(())
    }
}
