// Lighting.
ghost use Rattle.std.specs.Prelude.{◌≡◌};
ghost use Rattle.block_reader.specs.Light.{light_count};

// Counts the zeros among the low twelve lighting bits.
#[unsafe(no_mangle)]
pub extern "C" fn anow_light_count(lighting: u16) -> u32
    ensures { result ≡ light_count lighting }
{
    anowhetele::light::anow_light_count(lighting)
}
