// The packet question of an interface.
ghost use Rattle.std.specs.Prelude.{◌≡◌, ◌^◌, ◌<◌};
ghost use Rattle.octets.specs.Prelude.{true};
ghost use Rattle.messages.specs.Settings.{is_listed};
ghost use Rattle.steering.specs.Steering.{choice_of};
ghost use Rattle.interface.specs.States.{settings_in, steered_by};

use crate::Interface;

impl Interface {
    // The type, hash and queue of a packet under the settings: nothing is copied.
    pub fn steer(&self, packet: &[u8]) -> steering::Steered
        requires { (is_listed self.now.entry_count ≡ true) × (self.now.flags < 2 ^ 8) }
        ensures { choice_of result ≡ steered_by (settings_in self.now) packet.now }
    {
        let table = &self.entries[..];
        steering::steer(
            self.flags as u8,
            &self.key,
            &table[0..self.entry_count as usize],
            packet,
        )
    }
}
