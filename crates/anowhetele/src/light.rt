// Lighting.
ghost use Rattle.std.specs.Prelude.{◌≡◌};
ghost use Rattle.block_reader.specs.Light.{light_count};

// Counts the zeros among the low twelve lighting bits.
pub fn anow_light_count(lighting: u16) -> u32
    ensures { result ≡ light_count lighting }
{
    block_reader::light::light_count(lighting)
}
