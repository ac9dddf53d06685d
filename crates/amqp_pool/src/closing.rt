//! The channels of a pool are closed.

ghost use Rattle.std.specs.Prelude.{◌≡◌, ◌+◌, ◌≤◌, ℕ, length, IfErr, OnOk, OnErr, vec_capacity};
ghost use Rattle.amqp_commands.specs.declared.command.Cmd.TheVariants.{DropChannel};
ghost use Rattle.amqp_hub.specs.Entering.{called};
ghost use Rattle.amqp_pool.specs.Closing.{ClosesFrom, IsCloseRefused};

use amqp_hub::{Hub, Pass};
use amqp_session::{ChanRef, Cmd, Result};

/// Closes each of these channels, the last first, and lets it go. Where that is refused, those before it stay.
pub fn close_each(idle: &mut Vec<ChanRef>, hub: &mut Hub, pass: &mut Pass) -> Result<()>
    ensures closed { (left : ℕ)
        × ClosesFrom left idle.old.items idle.new.items hub.old hub.new pass.old pass.new }
    ensures none { OnOk result (length idle.new.items ≡ 0) }
    ensures refused { IfErr result (λ e. IsCloseRefused hub.new pass.new e) }
    ensures places { vec_capacity idle.new ≡ vec_capacity idle.old }
    ensures promises { hub.old.engine.talk.made ≤ hub.new.engine.talk.made }
{
    let mut left = idle.len();
    'idle: while left > 0 {
        close_one(idle[left - 1], hub, pass)?;
        left -= 1;
        idle.truncate(left);
    }
    Ok(())
}

// Closes a channel.
fn close_one(channel: ChanRef, hub: &mut Hub, pass: &mut Pass) -> Result<()>
    ensures ok { OnOk result (hub.new
        ≡ called pass.old.number (pass.old.made + 1) (DropChannel channel) hub.old) }
    ensures made { OnOk result (pass.new.made ≡ pass.old.made + 1) }
    ensures number { pass.new.number ≡ pass.old.number }
    ensures err { OnErr result ((hub.new ≡ hub.old) × (pass.new ≡ pass.old)) }
    ensures refused { IfErr result (λ e. IsCloseRefused hub.new pass.new e) }
    ensures promises { hub.old.engine.talk.made ≤ hub.new.engine.talk.made }
{
    let (_, receipt) = hub.command(pass, Cmd::DropChannel(channel))?;
    drop(receipt);
    Ok(())
}
