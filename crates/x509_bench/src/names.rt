//! Names: read from their texts, encoded, decoded, printed, and in order.

use crate::digest::{Digest, Report};
use crate::template::{Filler, Template};
use crate::texts::{fill_any, texts};
use std::alloc::Global;
use std::cmp::Ordering;
use x509_der::{Decode, DerOrd, Encode, Error, SetOfVec};
use x509_name::attr::AttributeTypeAndValue;
use x509_name::name::{Name, RelativeDistinguishedName};

/// Texts of names: most of them plain, some with escapes, beyond ASCII, as hex or with OIDs. Stars stand for letters, percent signs for digits.
const NAMES: [&str; 24] = [
    "CN=www.*****************.example.org",
    "CN=***********.example.com",
    "CN=*********,C=US",
    "CN=www.**************.org,O=************ Ltd,C=GB",
    "CN=********* Issuing CA %%,O=************ Trust Services,C=US",
    "CN=********* R%%%,OU=******* Operations,O=******** GmbH,C=DE",
    "CN=********.example.net,O=******** Incorporated,L=San *********,ST=California,C=US",
    "CN=*******.example.net,O=*****************,L=New ********,ST=******,C=US",
    "CN=********.example.org,OU=******** IT,O=********** University,L=********,ST=*********,C=NL",
    "CN=************,OU=Domain Control Validated",
    "CN=*********** ***** CA,O=**********,C=FR",
    "CN=***** **********,OU=People,DC=*******,DC=example,DC=org",
    "UID=********,OU=********,DC=example,DC=com",
    "CN=******** Root CA %%%%,O=************ Foundation,C=CH",
    "CN=www.*******.de,O=******** AG,L=********,C=DE",
    "CN=*****%%%%.example.org,O=*********,C=SE",
    "CN=******* *********+UID=******%%,OU=Staff,O=*********,C=US",
    "CN=*********+SN=******%%%%,O=************,C=JP",
    "CN=***** ********,O=*********\\, Inc.,C=US",
    "CN=********\\+*****\\2C ***,OU=\\#******** \\\"****\\\",O=******\\\\***\\ ,C=US",
    "CN=Zoë ******* Łukasz ******,O=Société ********* Générale,C=FR",
    "CN=株式会社********,O=東京********データ,C=JP",
    "CN=********,1.3.6.1.4.1.99999.1%%%=#0408%%%%%%%%%%%%%%%%,O=*******,C=US",
    "2.5.4.3=#0C066%6%6%6%6%6%,O=********,C=US",
];

/// Attributes as texts.
const ATTRIBUTES: [&str; 6] = [
    "OU=********* %%",
    "CN=*****************",
    "UID=******%%%%",
    "O=******* ********",
    "L=*********",
    "ST=************",
];

/// The text of the bytes.
fn text_of(bytes: &[u8]) -> &str {
    match std::str::from_utf8(bytes) {
        Ok(text) => text,
        Err(_) => "",
    }
}

/// Whether the name stays as it is by way of its encoding, which is taken in.
fn stays_encoded(alloc: Global, name: &Name, digest: &mut Digest) -> bool {
    match name.to_der(alloc) {
        Ok(encoded) => {
            digest.octets(encoded.as_slice());
            match Name::from_der(alloc, encoded.as_slice()) {
                Ok(decoded) => is_same(alloc, &decoded, name, digest),
                Err(_) => false,
            }
        }
        Err(_) => false,
    }
}

/// Whether a decoded name is the one that was encoded; its text is taken in.
fn is_same(alloc: Global, decoded: &Name, name: &Name, digest: &mut Digest) -> bool {
    match decoded.to_string(alloc) {
        Ok(printed) => {
            digest.text(printed.as_str());
            decoded == name
        }
        Err(_) => false,
    }
}

/// The name of a text, and whether it stays as it is.
fn read(alloc: Global, bytes: &[u8], report: &mut Report) -> Option<Name> {
    match Name::from_str(alloc, text_of(bytes)) {
        Ok(name) => {
            let stays = stays_encoded(alloc, &name, &mut report.digest);
            report.count(stays);
            Some(name)
        }
        Err(e) => {
            report.digest.number(e.kind() as u64);
            report.count(false);
            None
        }
    }
}

/// Takes in which neighbours are in order.
fn take_order(names: &[Name], digest: &mut Digest) {
    for (name, next) in names.iter().zip(names.iter().skip(1)) {
        digest.number(match name.der_cmp(next) {
            Ordering::Less => 1,
            Ordering::Equal => 2,
            Ordering::Greater => 3,
        });
    }
}

/// Sorts names, and takes their set in.
fn sort(alloc: Global, names: Vec<Name>, report: &mut Report) {
    take_order(names.as_slice(), &mut report.digest);
    let is_sorted = match SetOfVec::try_from_vec(names) {
        Ok(set) => take_set(alloc, &set, &mut report.digest),
        Err(e) => {
            report.digest.number(e.kind() as u64);
            false
        }
    };
    report.count(is_sorted);
}

/// Takes the encoding of a set of names in.
fn take_set(alloc: Global, set: &SetOfVec<Name>, digest: &mut Digest) -> bool {
    match set.to_der(alloc) {
        Ok(encoded) => {
            digest.octets(encoded.as_slice());
            true
        }
        Err(_) => false,
    }
}

/// Puts the attribute of a text into the RDN.
fn insert(alloc: Global, rdn: &mut RelativeDistinguishedName, bytes: &[u8]) -> bool {
    match AttributeTypeAndValue::from_str(alloc, text_of(bytes)) {
        Ok(attribute) => rdn.insert(attribute).is_ok(),
        Err(_) => false,
    }
}

/// Makes an RDN of several attributes, put in one after the other, and takes its encoding in.
fn make_rdn(
    alloc: Global,
    attributes: &[Template],
    buffer: &mut Vec<u8>,
    filler: &mut Filler,
    report: &mut Report,
) -> Result<(), Error> {
    let mut rdn = RelativeDistinguishedName::new(alloc);
    let mut are_in = true;
    let count = filler.random.index(4).wrapping_add(2);
    for _ in 0..count {
        fill_any(attributes, filler, buffer)?;
        are_in = insert(alloc, &mut rdn, buffer.as_slice()) && are_in;
    }
    let encoded = rdn.to_der(alloc)?;
    report.digest.octets(encoded.as_slice());
    report.count(are_in);
    Ok(())
}

/// Reads so many names, sorts 256 of each 512, and makes an RDN of several attributes beside each eighth.
pub(crate) fn run(alloc: Global, count: usize, seed: u64) -> Result<Report, Error> {
    let names = texts(alloc, NAMES.as_slice())?;
    let attributes = texts(alloc, ATTRIBUTES.as_slice())?;
    let mut filler = Filler::new(seed);
    let mut report = Report::new();
    let mut buffer = Vec::new(alloc);
    let mut unsorted = Vec::new(alloc);
    for number in 0..count {
        fill_any(names.as_slice(), &mut filler, &mut buffer)?;
        if let Some(name) = read(alloc, buffer.as_slice(), &mut report) {
            if number % 512 < 256 {
                unsorted.push(name)?;
            }
        }
        if number % 8 == 7 {
            make_rdn(
                alloc,
                attributes.as_slice(),
                &mut buffer,
                &mut filler,
                &mut report,
            )?;
        }
        if number % 512 == 255 {
            let full = std::mem::replace(&mut unsorted, Vec::new(alloc));
            sort(alloc, full, &mut report);
        }
    }
    Ok(report)
}
