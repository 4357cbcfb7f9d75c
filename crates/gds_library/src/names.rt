//! The name in a body.
ghost use Rattle.std.specs.Prelude.{◌≡◌};
ghost use Rattle.gds_model.specs.Names.{name_of};

/// The body without its trailing zero bytes.
pub fn name_in(body: &[u8]) -> &[u8]
    ensures { result.now ≡ name_of body.now }
{
    let mut end = body.len();
    while end > 0 && body[end - 1] == 0 {
        end -= 1;
    }
    &body[..end]
}
