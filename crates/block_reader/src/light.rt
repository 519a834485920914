// Lighting.
ghost use Rattle.std.specs.Prelude.{◌≡◌};
ghost use Rattle.block_reader.specs.Light.{light_count};

// Counts how many of the low twelve bits are zero: twelve less the ones among them.
pub fn light_count(lighting: u16) -> u32
    ensures { result ≡ light_count lighting }
{
    12 - (lighting & 4095).count_ones()
}
