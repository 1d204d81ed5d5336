//! The served image: what each register of the gateway reads.
ghost use Rattle.std.specs.Prelude.{◌≡◌, length};
ghost use Rattle.gateway.specs.served.Points.{all_registers};
ghost use Rattle.gateway.specs.served.ServedImage.{AreServed};

mod amount;
mod point;
mod points;
mod words;

use crate::event_core::Memory;
pub use amount::{own_value, partial_total_of, total_of};
pub use point::{OwnPoint, PointSource};
pub use points::{own_point, own_points, served_factor};
use site_model::Site;
use words::put_point;
pub(crate) use words::words_to_read;

/// Puts what each point reads into its registers, which stand side by side.
pub(crate) fn serve(points: &[OwnPoint], site: &Site, known: &Memory, image: &mut [u16])
    requires { length image.old ≡ all_registers points.now }
    ensures served { AreServed site.now known.now.outputs.items known.now.readings.items known.now.sets.items points.now image.new }
    ensures len { length image.new ≡ length image.old }
{
    let mut at = 0;
    for point in points {
        let end = at + point.registers();
        put_point(*point, site, known, &mut image[at..end]);
        at = end;
    }
}
