// Answers laid over the front of a lent buffer.
ghost use Rattle.flat.specs.Writes.{Lays};

use table::Refusal;

// The bytes over the front of the buffer; the value, where it has room.
pub fn laid(bytes: &[u8], value: usize, buf: &mut [u8]) -> Result<usize, Refusal>
    ensures { Lays value bytes.now buf.old result buf.new }
{
    lent::inner::laid(bytes, buf)?;
    Ok(value)
}
