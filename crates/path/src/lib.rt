// Does a record stand on the path of a LOOKUP? A path is endpoints as on the wire, 18 bytes each: port 2, address 16.
#![tactic(auto)]

ghost use Rattle.std.specs.Prelude.{◌≡◌, ◌+◌, ◌≤◌, eqb, length, get_or};
ghost use Rattle.octet.specs.Part.{part, same};
ghost use Rattle.record.specs.Record.{port_of};
ghost use Rattle.path.specs.Path.{path_form, endpoint_port, on_path};

// How many bytes an endpoint has.
pub const ENDPOINT_LEN: usize = 18;

// Is the path made of whole endpoints? None is allowed.
pub fn is_path(path: &[u8]) -> bool
    ensures { result ≡ path_form path.now }
{
    path.len() % ENDPOINT_LEN == 0
}

// Has the endpoint at a place of the path the port of the record at a place? Both as the machine reads them.
fn same_port(s: &[u8], at: usize, path: &[u8], start: usize) -> bool
    requires { (at + 100 ≤ length s.now) × (start + 18 ≤ length path.now) }
    ensures { result
        ≡ eqb (endpoint_port (part start 18 path.now)) (port_of (part at 100 s.now)) }
{
    let port = octet::read_u16_le(s, at + 32);
    octet::read_u16_le(path, start) == port
}

// Do the port of the record at a place and one of its addresses stand together as an endpoint on the path? It stops at the
// first that is found.
pub fn on_path(s: &[u8], at: usize, path: &[u8]) -> bool
    requires { (at + 100 ≤ length s.now) × (get_or s.now (at + 34) 0 ≤ 4) }
    ensures { result ≡ on_path (part at 100 s.now) path.now }
{
    let count = s[at + 34] as usize;
    let endpoints = path.len() / ENDPOINT_LEN;
    let mut found = false;
    let mut k = 0;
    'path: while k < endpoints {
        let start = ENDPOINT_LEN * k;
        k += 1;
        if same_port(s, at, path, start) {
            let mut i = 0;
            while i < count {
                found = octet::equal_words(s, at + 36 + 16 * i, path, start + 2, 2);
                if found {
                    break 'path;
                }
                i += 1;
            }
        }
    }
    found
}
