// Plays a script of calls from standard input and writes what each one did.
#![tactic(auto)]

use plays::Telling;
use script::Player;
use std::io;

fn main(rt: HostRuntime) -> io::Result<()> {
    let mut player = Player::new();
    plays::play_all(
        &mut rt.stdin(),
        &mut rt.stdout(),
        Telling::Aloud,
        &mut player,
    )
}
