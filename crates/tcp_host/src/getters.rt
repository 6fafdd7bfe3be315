//! What a program asks of its connections.
ghost use Rattle.std.specs.Prelude.{◌≡◌, true, false, Some, None};
ghost use Rattle.tcp_connection.specs.Asked as asked;
ghost use Rattle.tcp_host.specs.Table.{ends_at};
ghost use Rattle.tcp_host.specs.Handles as spec;
ghost use Rattle.tcp_host.specs.Host.{connection_at};

use crate::calls::Handle;
use crate::host::TcpHost;
use crate::iss::Endpoints;

impl TcpHost {
    /// The two ends of a connection. None with a wrong handle.
    pub fn endpoints(&self, handle: Handle) -> Option<Endpoints>
        ensures wrong { spec.is_named handle self.now ≡ false → result ≡ None }
        ensures value { spec.is_named handle self.now ≡ true → result ≡ ends_at self.now.ends handle.place }
    {
        if self.is_named(handle) {
            self.table.get(handle.place)
        } else {
            None
        }
    }

    /// How many octets a write takes, if it has as many. None with a wrong handle.
    pub fn send_room(&self, handle: Handle) -> Option<usize>
        ensures wrong { spec.is_named handle self.now ≡ false → result ≡ None }
        ensures value { spec.is_named handle self.now ≡ true → result ≡ Some (asked.send_room (connection_at handle.place self.now)) }
    {
        if self.is_named(handle) {
            Some(self.slots[handle.place].connection.send_room())
        } else {
            None
        }
    }
}
