// What making a packet answers.
ghost use Rattle.std.specs.Prelude.{◌≡◌};
ghost use Rattle.answer_types.specs.Verdict.{unless_refused};
ghost use Rattle.packet.specs.Post.{made_verdict, made_bytes};
ghost use Rattle.c_encoding.specs.Encoding.{encoded};

use answer_types::Refusal;

// The three numbers of the answer, and the packet's length into `length` where it is made.
pub fn give_length(made: Result<u64, Refusal>, length: &mut u64) -> [u64; 3]
    ensures answers { result ≡ encoded (made_verdict made) }
    ensures gives { length.new ≡ unless_refused (made_verdict made) (made_bytes made) length.old }
{
    match made {
        Err(refusal) => super::answers::refused(refusal),
        Ok(bytes) => {
            *length = bytes;
            super::answers::encode(Ok(()))
        }
    }
}
