ghost use Rattle.std.specs.Prelude.{◌≡◌, map, position};
ghost use Rattle.std.specs.Option.{option_copied};
ghost use Rattle.std.specs.Str.{bytes_eq};
ghost use Rattle.action.specs.Errnos.{alias_of, errno_name, errno_number, errno_text, errnos, place_of};

use std::fmt;

/// How many numbers have errnos, 0 included.
const ERRNO_LIMIT: usize = 134;

// The name of each errno at its number on x86-64, as errno(3) and asm-generic/errno.h have them. The text is
// empty if no errno has the number.
#[rattlefmt::skip]
static ERRNOS: [&str; ERRNO_LIMIT] = [
    "", "EPERM", "ENOENT", "ESRCH", "EINTR", "EIO", "ENXIO", "E2BIG", "ENOEXEC", "EBADF", "ECHILD",
    "EAGAIN", "ENOMEM", "EACCES", "EFAULT", "ENOTBLK", "EBUSY", "EEXIST", "EXDEV", "ENODEV",
    "ENOTDIR", "EISDIR", "EINVAL", "ENFILE", "EMFILE", "ENOTTY", "ETXTBSY", "EFBIG", "ENOSPC",
    "ESPIPE", "EROFS", "EMLINK", "EPIPE", "EDOM", "ERANGE", "EDEADLK", "ENAMETOOLONG", "ENOLCK",
    "ENOSYS", "ENOTEMPTY", "ELOOP", "", "ENOMSG", "EIDRM", "ECHRNG", "EL2NSYNC", "EL3HLT",
    "EL3RST", "ELNRNG", "EUNATCH", "ENOCSI", "EL2HLT", "EBADE", "EBADR", "EXFULL", "ENOANO",
    "EBADRQC", "EBADSLT", "", "EBFONT", "ENOSTR", "ENODATA", "ETIME", "ENOSR", "ENONET", "ENOPKG",
    "EREMOTE", "ENOLINK", "EADV", "ESRMNT", "ECOMM", "EPROTO", "EMULTIHOP", "EDOTDOT", "EBADMSG",
    "EOVERFLOW", "ENOTUNIQ", "EBADFD", "EREMCHG", "ELIBACC", "ELIBBAD", "ELIBSCN", "ELIBMAX",
    "ELIBEXEC", "EILSEQ", "ERESTART", "ESTRPIPE", "EUSERS", "ENOTSOCK", "EDESTADDRREQ", "EMSGSIZE",
    "EPROTOTYPE", "ENOPROTOOPT", "EPROTONOSUPPORT", "ESOCKTNOSUPPORT", "EOPNOTSUPP",
    "EPFNOSUPPORT", "EAFNOSUPPORT", "EADDRINUSE", "EADDRNOTAVAIL", "ENETDOWN", "ENETUNREACH",
    "ENETRESET", "ECONNABORTED", "ECONNRESET", "ENOBUFS", "EISCONN", "ENOTCONN", "ESHUTDOWN",
    "ETOOMANYREFS", "ETIMEDOUT", "ECONNREFUSED", "EHOSTDOWN", "EHOSTUNREACH", "EALREADY",
    "EINPROGRESS", "ESTALE", "EUCLEAN", "ENOTNAM", "ENAVAIL", "EISNAM", "EREMOTEIO", "EDQUOT",
    "ENOMEDIUM", "EMEDIUMTYPE", "ECANCELED", "ENOKEY", "EKEYEXPIRED", "EKEYREVOKED",
    "EKEYREJECTED", "EOWNERDEAD", "ENOTRECOVERABLE", "ERFKILL", "EHWPOISON",
];

/// The name of the errno with this number, if it has one.
#[tactic(auto, unfolding(crate::specs::Errnos::errno_name))]
pub fn errno_name(code: u16) -> Option<&'static str>
    ensures { option_copied result ≡ errno_name code }
{
    let text = errno_text(code);
    if text.is_empty() { None } else { Some(text) }
}

// The table's text at this number: empty if no errno has the number.
fn errno_text(code: u16) -> &'static str
    ensures { result.now ≡ errno_text code }
{
    match errnos().get(code as usize) {
        Some(text) => *text,
        None => "",
    }
}

/// The number of the errno with this name, if there is one.
pub fn errno_number(name: &str) -> Option<u64>
    ensures { result ≡ errno_number name.now }
{
    if name.is_empty() {
        return None;
    }
    let place = place_of(alias_of(name))?;
    Some(place as u64)
}

/// An errno as it is printed: `38 (ENOSYS)`, or the number alone if it has no name.
#[derive(Clone, Copy, Debug)]
pub struct ShownErrno(pub u16);

impl fmt::Display for ShownErrno {
    ghost use Rattle.std.specs.Prelude.{Some};
    ghost use Rattle.action.specs.Errnos.{shown_errno};

    ghost output = { λ errno. Some (shown_errno errno.0) };

    fn fmt<W: fmt::Write>(&self, f: &mut fmt::Formatter<W>) -> fmt::Result {
        let code = self.0;
        match errno_name(code) {
            Some(name) => write!(f, "{code} ({name})"),
            None => write!(f, "{code}"),
        }
    }
}

/// Some errnos have two names.
fn alias_of(name: &str) -> &str
    ensures { result.now ≡ alias_of name.now }
{
    match name {
        "EWOULDBLOCK" => "EAGAIN",
        "EDEADLOCK" => "EDEADLK",
        "ENOTSUP" => "EOPNOTSUPP",
        _ => name,
    }
}

#[tactic(auto, unfolding(crate::specs::Errnos::place_of))]
fn place_of(name: &str) -> Option<usize>
    ensures { result ≡ place_of name.now }
{
    place_in(errnos(), name)
}

fn place_in(known: &[&str], name: &str) -> Option<usize>
    ensures { result ≡ position (λ text. bytes_eq text.now name.now) known.now }
{
    known.iter().position(|text| *text == name)
}

#[tactic(auto, unfolding(crate::specs::Errnos::errnos))]
fn errnos() -> &'static [&'static str]
    ensures { map (λ name. name.now) result.now ≡ errnos }
{
    &ERRNOS
}
