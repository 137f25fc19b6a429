// Ctrl 1 of a square.
ghost use Rattle.std.specs.Prelude.{◌≡◌};
ghost use Rattle.engine_base.specs.Ctrl1.{default_ctrl1, combined};

// Ctrl 1 of a silent square.
pub const SILENT: u8 = 0x10;

pub fn default_ctrl1(default: u8) -> u8
    ensures { result ≡ default_ctrl1 default }
{
    if default == 0 { SILENT } else { default }
}

pub fn combine(v: u8, default: u8) -> u8
    ensures { result ≡ combined v default }
{
    v | (default & 0xf0)
}
