// Labels taken apart.
ghost use Rattle.std.specs.Prelude.{◌≡◌, length};
ghost use Rattle.file_format.specs.Label.{kinds_in, packages_in};

// The kinds and the packages of labels, each in a table of its own.
pub fn split(labels: &[u32], kinds: &mut [u16], packages: &mut [u16])
    requires { (length kinds.old ≡ length labels.now) × (length packages.old ≡ length labels.now) }
    ensures { (kinds.new ≡ kinds_in labels.now)
        × (packages.new ≡ packages_in labels.now) }
{
    for (i, &label) in labels.iter().enumerate() {
        kinds[i] = (label % 65536) as u16;
        packages[i] = (label / 65536) as u16;
    }
}
