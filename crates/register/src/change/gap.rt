// A gap in a lent buffer is closed.
ghost use Rattle.std.specs.Prelude.{◌≡◌, ◌+◌, ◌≤◌, length};
ghost use Rattle.register.specs.Change.Bytes.{closed};

// Closes the gap of `gap` bytes at `from`; as many bytes at the end become 0.
pub(crate) fn close_gap(buffer: &mut [u8], from: usize, gap: usize)
    requires { from + gap ≤ length buffer.old }
    ensures { buffer.new ≡ closed buffer.old from gap }
{
    buffer.copy_within(from + gap.., from);
    let end = buffer.len() - gap;
    buffer[end..].fill(0);
}
