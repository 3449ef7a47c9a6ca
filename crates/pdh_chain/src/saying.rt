//! What the service bits of a line's frames say.
ghost use Rattle.std.specs.Prelude.{◌≡◌, ◌<◌, ◌+◌, ℕ, Option, IfSome};
ghost use Rattle.pdh_chain.specs.Saying.{says_of, HasSaid};

use pdh_cbit::FeacSender;
use pdh_shape::Service;

/// A sender of a code over the far end alarm and control channel, where there is a code.
pub fn channel_of(feac: Option<u8>) -> Option<FeacSender>
    requires code { IfSome feac (λ code. code < 64) }
    ensures { HasSaid result feac 0 }
{
    match feac {
        Some(code) => Some(FeacSender::new(code)),
        None => None,
    }
}

/// What the next frame says: the channel's next bit, and else that all is idle.
pub fn next_service(channel: &mut Option<FeacSender>) -> Service
    ensures says { (feac : Option ℕ) (n : ℕ) → HasSaid channel.old feac n → result ≡ says_of feac n }
    ensures said { (feac : Option ℕ) (n : ℕ) → HasSaid channel.old feac n → HasSaid channel.new feac (n + 1) }
{
    match channel {
        Some(sender) => Service {
            feac: sender.next(),
            ..Service::idle()
        },
        None => Service::idle(),
    }
}
