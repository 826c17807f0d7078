// The media that holdings come on and go to: carriers, which give records, and outputs, which take them.
// What a carrier or an output means is said by the ghost members of its trait; over bytes, the bytes fix it.
#![tactic(auto)]

pub mod carriers;
pub mod copying;
pub mod framing;
pub mod images;
pub mod joining;
pub mod outputs;
pub mod volumes;

pub use carriers::{Carrier, Ending, Fault};
pub use copying::{Copied, copy};
pub use framing::Framing;
pub use images::Image;
pub use joining::Joined;
pub use outputs::{Output, PutRefusal};
pub use volumes::{Volume, VolumeFault};
